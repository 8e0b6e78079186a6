ghost use Rattle.rich_linear_laws.specs.Laws.{RowsExchange, ModuleGlobals, BodiesExchange};
ghost use Rattle.rich_linear_laws.specs.Rows.{NoExchanges};

/// A law on each row of the table, at a point whose types are well formed and where globals are `unr`: where it gives
/// operands, it exchanges those on top in one of the ways that are named, and leaves those beneath as they are. The globals
/// of a well-typed module are `unr`, so this holds of each row at each point of its bodies.
pub fn operands_exchanged()
    ensures rows { RowsExchange }
    ensures globals { ModuleGlobals }
    ensures bodies { BodiesExchange }
{}

/// Rows: the right to write at a location is neither dropped nor copied by an exchange.
pub fn worked_exchanges()
    ensures { NoExchanges }
{}
