ghost use Rattle.rich_types.specs.Rows.{WorkedSizes, WorkedForms, WorkedInstances};

/// Rows, computed: sizes and qualifiers of types, types that are well formed and types that are not, and types with
/// arguments put in.
pub fn worked_types()
    ensures sizes { WorkedSizes }
    ensures forms { WorkedForms }
    ensures instances { WorkedInstances }
{}
