ghost use Rattle.rich_rules.specs.Rows.{WorkedRules};

/// Rows, computed: what instructions make of points that no body reaches, and tests of types.
pub fn worked_rules()
    ensures { WorkedRules }
{}
