//! Values of closed types under what stands in both stores, and laws on them: the ground of type safety of linked programs.
#![tactic(auto)]

ghost use Rattle.rich_soundness_values.specs.Laws.{ValuesHaveForms, ValuesHaveWords, UnrHasNoRights, TypesAreFramed};

/// A law: a value of a closed type has the form and the words of the type, and where it may be dropped and copied, no right to a
/// linear location.
pub fn typed_values()
    ensures forms { ValuesHaveForms }
    ensures words { ValuesHaveWords }
    ensures rights { UnrHasNoRights }
{}

/// A law: where what stands at one linear location turns into something else, the values and cells that have no right to read there
/// keep their types.
pub fn types_are_framed()
    ensures { TypesAreFramed }
{}
