ghost use Rattle.rich_types_laws.specs.Laws.{InstanceOfInstance, RaisedByNothing, WellFormedInstance, SizesAgree, QualifiersAgree};

/// Laws on every type: an instance of an instance is one instance; raising by nothing changes nothing; and the instance
/// of a well-formed type, by arguments that answer its binders, is well formed, of the same qualifier and size.
pub fn instances()
    ensures composed { InstanceOfInstance }
    ensures unchanged { RaisedByNothing }
    ensures well_formed { WellFormedInstance }
{}

/// Laws on every type and row of binders: the sizes and qualifiers that the rules of bodies speak of are those of types
/// under the scope of these binders.
pub fn one_size()
    ensures sizes { SizesAgree }
    ensures qualifiers { QualifiersAgree }
{}
