//! What stands for binders, one or more binders within others: types that are raised past them, bodies beneath them, sizes. Laws that
//! steps at rows which enter or leave a binder rest on.
#![tactic(auto)]

ghost use Rattle.rich_soundness_binders.specs.Laws.{RaisedStays, BodiesStand, InstancesStand, SizesStay};

/// A law: a type that was raised past binders is what it was where something stands for these; a body is what it is where what stands
/// for its binders is put in later; and so is an instance.
pub fn types_stand_for_binders()
    ensures raised { RaisedStays }
    ensures bodies { BodiesStand }
    ensures instances { InstancesStand }
{}

/// A law: where closed types of the same sizes stand for type variables, a type keeps its size.
pub fn sizes_stay()
    ensures { SizesStay }
{}
