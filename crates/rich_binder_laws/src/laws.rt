ghost use Rattle.rich_binder_laws.specs.Laws.{RaisedKept, ArgumentsTold};

/// A law on every well-formed type: raised past a binder it is well formed under it, of the same qualifier and size.
pub fn raised_types()
    ensures { RaisedKept }
{}

/// A law on every row of arguments whose types are well formed: they are told to answer binders exactly where they do.
pub fn arguments_told()
    ensures { ArgumentsTold }
{}
