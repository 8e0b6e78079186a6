ghost use Rattle.rich_linking_laws.specs.Laws.{DerivationsKept, LinkedTyped};

/// Laws on linked bodies. A derivation of a list is one of that list with new numbers, with the same notes, in each frame
/// in which functions and globals are under their new numbers what they were under the old ones. And where well-typed
/// files link, each body of the program has a derivation under the program's numbers, with the notes of its file.
pub fn linked_bodies()
    ensures kept { DerivationsKept }
    ensures typed { LinkedTyped }
{}
