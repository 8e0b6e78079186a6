//! Types that are well formed outside all binders, and arguments of binders where something stands for the binders around: what a
//! call of a function makes of its type.
#![tactic(auto)]

ghost use Rattle.rich_soundness_instances.specs.Laws.{ArgumentsAnswer, FunctionsAreClosed, InstancesPutIn, SizesKept, TypesAreClosed};

/// A law: a type and a function's type that are well formed outside all binders are the same whatever stands for binders around them.
pub fn types_are_closed()
    ensures types { TypesAreClosed }
    ensures functions { FunctionsAreClosed }
{}

/// A law: arguments that answer binders still do so where something stands for the binders around them, an instance by them is
/// what stands under the binders with these put in, and it has the words that are counted under the binders.
pub fn arguments_stand()
    ensures answer { ArgumentsAnswer }
    ensures put_in { InstancesPutIn }
    ensures sizes { SizesKept }
{}
