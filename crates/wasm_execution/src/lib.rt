//! What a module of WebAssembly does when it runs (WebAssembly Core Specification 1.0, chapter 4).
//! Its definitions are `start_of`, how a module starts, `step`, and `wasm`, what is seen of a module after so many steps.
//! Rows that are computed stand beside them.
#![tactic(auto)]

ghost use Rattle.wasm_execution.specs.ControlRows.{AloneTakes, BranchTakes, BranchIfTakes, LoopTakes, EndlessGoes, TableTakes, OneArmTakes, EmptyElseTakes, ReturnTakes, SelectTakes, DivisionsTrap, StuckWithout};
ghost use Rattle.wasm_execution.specs.CallRows.{SameTypeTakes, ArgumentTakes, PrintTakes, IndirectTraps};
ghost use Rattle.wasm_execution.specs.MemoryRows.{LoadTraps, StoreTraps, StoreTakes, GrowTakes, GrowFails, SizeTakes};
ghost use Rattle.wasm_execution.specs.EventRows.{AllocatorsTold, OthersNotTold, ArgumentKept, StopTold, TouchTold, InsideNotTold};
ghost use Rattle.wasm_execution.specs.StartRows.{StartTakes, StartTraps, TrapCodesCount, UnknownImports, SegmentsOut, NoMains, NumberKept};
ghost use Rattle.wasm_execution.specs.Rows.{AddingTakes, DroppingTakes, ExhaustedTakes, PrintingTakes, StartingTakes};

/// Rows: a module that prints 7 and gives 0 takes 12 steps, and where its start function prints 7 first 21; one that drops
/// a number and gives 0 takes 11; one that adds -1 to the least number takes 14 and gives the greatest; and one that finds
/// its room spent takes 2.
pub fn modules_run()
    ensures printing { PrintingTakes }
    ensures starting { StartingTakes }
    ensures dropping { DroppingTakes }
    ensures adding { AddingTakes }
    ensures exhausted { ExhaustedTakes }
{}

/// Rows: a module of one function; branches out of blocks, to a loop and by a table; arms that are entered and passed over;
/// a return out of a block; a choice; divisions that trap; and what has no step.
pub fn lists_run()
    ensures alone { AloneTakes }
    ensures branch { BranchTakes }
    ensures branch_if { BranchIfTakes }
    ensures repeated { LoopTakes }
    ensures endless { EndlessGoes }
    ensures table { TableTakes }
    ensures one_arm { OneArmTakes }
    ensures empty_else { EmptyElseTakes }
    ensures returned { ReturnTakes }
    ensures select { SelectTakes }
    ensures divisions { DivisionsTrap }
    ensures stuck { StuckWithout }
{}

/// Rows: calls through a table, of the host's function too, and their three traps.
pub fn indirect_calls_run()
    ensures same_type { SameTypeTakes }
    ensures argument { ArgumentTakes }
    ensures printed { PrintTakes }
    ensures traps { IndirectTraps }
{}

/// Rows: loads and stores within a memory and past its end, and a memory that grows and that does not.
pub fn memories_run()
    ensures load_traps { LoadTraps }
    ensures store_traps { StoreTraps }
    ensures stored { StoreTakes }
    ensures grown { GrowTakes }
    ensures not_grown { GrowFails }
    ensures size { SizeTakes }
{}

/// Rows: a start function before `main`; which global tells why the run was stopped; why modules do not start; and a
/// function behind one that is not there.
pub fn modules_start()
    ensures start { StartTakes }
    ensures start_traps { StartTraps }
    ensures trap_code { TrapCodesCount }
    ensures imports { UnknownImports }
    ensures segments { SegmentsOut }
    ensures no_main { NoMains }
    ensures number { NumberKept }
{}

/// Rows: the calls and returns of functions 1 to 3 where they have the allocators' types, and nothing where one has another;
/// the first argument of a call after its local was set; why a run was stopped; and a load, but none of an allocator.
pub fn events_are_told()
    ensures allocators { AllocatorsTold }
    ensures others { OthersNotTold }
    ensures argument { ArgumentKept }
    ensures stopped { StopTold }
    ensures touched { TouchTold }
    ensures inside { InsideNotTold }
{}
