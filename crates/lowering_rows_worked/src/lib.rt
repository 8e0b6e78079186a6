//! Programs of the whole language with their codes, computed: each line of the lowering table stands in one of them.
#![tactic(auto)]

ghost use Rattle.lowering_rows_worked.specs.ControlRows.{AddingLowered, BranchingIfLowered, ChoosingLowered, EndedListsLowered, FoldingLowered, GivingFiveWordsLowered, GroupingLowered, LoopingLowered, MovingDownLowered, NarrowCountLowered, NarrowNumbersLowered, NothingLowered, ReturningLowered, WideCountLowered};
ghost use Rattle.lowering_rows_worked.specs.OpeningRows.{CellInAVariantLowered, GreatestCaseLowered, LeavingABlockLowered, LeavingACaseLowered, ParametersBeneathLowered, ParametersOfAPackageLowered, UnrestrictedPackageLowered};
ghost use Rattle.lowering_rows_worked.specs.StructsRows.{DividingLowered, JoiningLowered, OtherTypesLowered, PackingLowered, QualifyingLowered, SplittingLowered, SwappingLowered, WideSlotsLowered};
ghost use Rattle.lowering_rows_worked.specs.ArraysRows.{ArrayOfPairsLowered, ArrayPastItsEndLowered, WordlessArrayLowered};
ghost use Rattle.lowering_rows_worked.specs.GlobalsRows.{CallingByCodeLowered, CodeOfItselfLowered, EndedInitialiserLowered, GlobalOfTwoWordsLowered, InitialiserWithCellsLowered};

/// Rows: numbers of each width, lists, branches out of them and to the start of one, returns, calls, locals, and instructions without words.
pub fn control_is_lowered()
    ensures adding { AddingLowered }
    ensures moving_down { MovingDownLowered }
    ensures branching_if { BranchingIfLowered }
    ensures looping { LoopingLowered }
    ensures returning { ReturningLowered }
    ensures choosing { ChoosingLowered }
    ensures giving_five_words { GivingFiveWordsLowered }
    ensures narrow_numbers { NarrowNumbersLowered }
    ensures ended_lists { EndedListsLowered }
    ensures folding { FoldingLowered }
    ensures grouping { GroupingLowered }
    ensures nothing { NothingLowered }
    ensures narrow_count { NarrowCountLowered }
    ensures wide_count { WideCountLowered }
{}

/// Rows: variants and packages that are taken apart in both memories, with branches out of their lists, with parameters beneath them, and with results.
pub fn opening_is_lowered()
    ensures leaving_a_case { LeavingACaseLowered }
    ensures leaving_a_block { LeavingABlockLowered }
    ensures parameters_beneath { ParametersBeneathLowered }
    ensures parameters_of_a_package { ParametersOfAPackageLowered }
    ensures unrestricted_package { UnrestrictedPackageLowered }
    ensures cell_in_a_variant { CellInAVariantLowered }
    ensures greatest_case { GreatestCaseLowered }
{}

/// Rows: structs of slots wider than their types, a slot with a wider and a narrower value, a swap of three words for one, capabilities taken apart and joined, hidden locations.
pub fn structs_are_lowered()
    ensures wide_slots { WideSlotsLowered }
    ensures other_types { OtherTypesLowered }
    ensures swapping { SwappingLowered }
    ensures splitting { SplittingLowered }
    ensures joining { JoiningLowered }
    ensures packing { PackingLowered }
    ensures dividing { DividingLowered }
    ensures qualifying { QualifyingLowered }
{}

/// Rows: arrays of no words, of pairs and of numbers, made, read, written and freed in both memories.
pub fn arrays_are_lowered()
    ensures wordless_array { WordlessArrayLowered }
    ensures array_of_pairs { ArrayOfPairsLowered }
    ensures array_past_its_end { ArrayPastItsEndLowered }
{}

/// Rows: globals set and read word by word, initialisers with branches, with cells, and one that is ended, calls by code values.
pub fn globals_are_lowered()
    ensures calling_by_code { CallingByCodeLowered }
    ensures ended_initialiser { EndedInitialiserLowered }
    ensures global_of_two_words { GlobalOfTwoWordsLowered }
    ensures initialiser_with_cells { InitialiserWithCellsLowered }
    ensures code_of_itself { CodeOfItselfLowered }
{}
