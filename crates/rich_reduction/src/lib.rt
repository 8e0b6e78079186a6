//! What a linked program does when it runs: configurations, a step for every instruction, and what is seen after so many steps.
//! Rows that are computed stand beside the definitions.
#![tactic(auto)]

ghost use Rattle.rich_reduction.specs.Rows.{AddingTakes, DropStopsShort, DroppingTakes, GlobalsAreSet, GlobalsTake, InitialiserStopsShort, LeftOverStopsShort, PrintingTakes};

/// Rows: programs that print 7 and give 0, that drop a number and give the one beneath, and that add -1 to the least number take 6
/// steps. One with two globals, of one instruction and of three, takes 14, and they have their values then. One that drops what
/// is not there has no step, nor has one with an operand left over at the end of its function or of an initialiser.
pub fn programs_run()
    ensures printing { PrintingTakes }
    ensures dropping { DroppingTakes }
    ensures adding { AddingTakes }
    ensures globals { GlobalsTake }
    ensures values { GlobalsAreSet }
    ensures not_there { DropStopsShort }
    ensures left_over { LeftOverStopsShort }
    ensures left_in_a_list { InitialiserStopsShort }
{}
