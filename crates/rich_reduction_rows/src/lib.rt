//! Programs of the whole language that are computed: how many steps they take, what they print, how they end, and what they say
//! of their cells.
#![tactic(auto)]

ghost use Rattle.rich_reduction_rows.specs.ControlRows.{BranchTakes, CountingTakes, EndlessGoes, LoopTakes, OverflowTraps, ReturnTakes, TakenStopsShort, TrapLeavesOperands, UnreachableTraps};
ghost use Rattle.rich_reduction_rows.specs.CellRows.{ApartTakes, IndexLeavesOperands, IndexSays, IndexTraps, LinearApartSays, MixedStopsShort, SettingSays, SettingTakes, SharingTakes, SplittingSays, SplittingTakes, SwappingLeavesNone, SwappingSays, SwappingTakes, UnrestrictedApartSays};
ghost use Rattle.rich_reduction_rows.specs.BinderRows.{BindingSays, BindingTakes};
ghost use Rattle.rw_types.specs.declared.types.Mem.TheVariants.{L, U};

/// Rows: a quotient that overflows traps after 4 steps, and its operands stay; `unreachable` in a list; a loop without end; a
/// function that calls itself takes 33; a branch out of a block, one to a loop with its parameter, a return out of two lists; and
/// a local that is unit after its value was taken.
pub fn numbers_and_lists_run()
    ensures overflow { OverflowTraps }
    ensures unreachable { UnreachableTraps }
    ensures endless { EndlessGoes }
    ensures calls { CountingTakes }
    ensures branch { BranchTakes }
    ensures repeated { LoopTakes }
    ensures returned { ReturnTakes }
    ensures taken { TakenStopsShort }
    ensures operands { TrapLeavesOperands }
{}

/// Rows: a linear cell that holds a number and then a hidden cell takes 14 steps; two cells with their addresses 20; an address
/// and a capability of two locations are stuck; rights to write given away and taken back; an index at the length traps after 7,
/// and its operands stay; cells swapped within a cell; a variant taken apart in each memory. Beside them what each says.
pub fn cells_run()
    ensures setting { SettingTakes }
    ensures setting_says { SettingSays }
    ensures splitting { SplittingTakes }
    ensures splitting_says { SplittingSays }
    ensures mixed { MixedStopsShort }
    ensures sharing { SharingTakes }
    ensures index { IndexTraps }
    ensures index_says { IndexSays }
    ensures index_operands { IndexLeavesOperands }
    ensures swapping { SwappingTakes }
    ensures swapping_says { SwappingSays }
    ensures swapping_leaves { SwappingLeavesNone }
    ensures apart { ApartTakes L }
    ensures apart_says { LinearApartSays }
    ensures copied { ApartTakes U }
    ensures copied_says { UnrestrictedApartSays }
{}

/// Rows: a function that is called with a location and a type, with a branch out of both binders of a package, takes 36 steps; the
/// words of its cells.
pub fn binders_run()
    ensures binding { BindingTakes }
    ensures binding_says { BindingSays }
{}
