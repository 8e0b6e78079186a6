//! Laws of the first faults of Rich texts, over the definitions of `rich_text`: nothing behind a fault's token changes it.
#![tactic(auto)]

ghost use Rattle.rich_text_fault_laws.specs.Laws.{EncodingIsFirst, FourBytesTell, NothingBehindBytesCounts, NothingBehindTokenCounts};

/// A law: two texts in well-formed UTF-8 that agree up to the end of the token, or of what is none, at which the first
/// fault of one stands, have the same first fault at the same place.
pub fn nothing_behind_a_token_counts()
    ensures { NothingBehindTokenCounts }
{}

/// A law: ill-formed UTF-8 is the first fault of a text wherever it stands; and texts that agree up to the end of the
/// bytes that begin no sequence have that fault at the same place.
pub fn nothing_behind_ill_formed_bytes_counts()
    ensures first { EncodingIsFirst }
    ensures alone { NothingBehindBytesCounts }
    ensures four { FourBytesTell }
{}
