ghost use Rattle.rich_rules_formed.specs.Laws.{RowsKeepForms, StartsFormed, PointsFormed, BodiesFormed, NotesStand, NotesFormed};

/// A law on each row of the table: what it makes of a point whose types are well formed under its binders has types that
/// are. So has the start of each body, where its function's type breaks no rule.
pub fn rows_keep_forms()
    ensures rows { RowsKeepForms }
    ensures starts { StartsFormed }
{}

/// Laws on all points of bodies. From a point whose types are well formed, each point of a list and of the lists in it has
/// such types; so has each point of each body of a well-typed module. The notes of a derivation are those of such points,
/// and so their types are well formed.
pub fn points_formed()
    ensures points { PointsFormed }
    ensures bodies { BodiesFormed }
    ensures stand { NotesStand }
    ensures notes { NotesFormed }
{}
