//! Laws on the steps of a linked program, whatever its types are: what each does to the stores and says, and what becomes of the
//! stores in a run.
#![tactic(auto)]

ghost use Rattle.rich_reduction_laws.specs.Laws.{EffectsHold, TouchedOnce, PrintedByPrint, StoresOnlyGrow, MadeInOrder, EndsInFourTraps, RoomIsNeverWanting, OverStays};

/// A law: each step does to the stores, and says, what the effect of its instruction is.
pub fn steps_have_effects()
    ensures effects { EffectsHold }
    ensures touched { TouchedOnce }
    ensures printed { PrintedByPrint }
{}

/// A law: in any number of steps no number of a store is used twice. What was freed stays freed, cells keep their words, and new
/// cells have the next numbers of their store.
pub fn numbers_are_used_once()
    ensures grow { StoresOnlyGrow }
    ensures order { MadeInOrder }
{}

/// A law: a run ends with a value or in one of four traps, never for want of room, and stays as it is then.
pub fn runs_end_in_four_traps()
    ensures traps { EndsInFourTraps }
    ensures room { RoomIsNeverWanting }
    ensures stays { OverStays }
{}
