//! The relation of a program's configurations and those of its lowered module, for programs without cells: values and words, lists
//! and their codes, calls, globals. Its law: the first configurations are related.
#![tactic(auto)]

ghost use Rattle.simulation_relation.specs.Laws.{StartsRelated};

/// A law: the first configuration of a program and that of its lowered module are related.
pub fn starts_are_related()
    ensures { StartsRelated }
{}
