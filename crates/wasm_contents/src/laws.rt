ghost use Rattle.wasm_contents.specs.Laws.{EachWantsAByte};

/// A law: each content in the middle wants a byte, so where the input ends, or a declared end is reached, that is the
/// fault.
pub fn each_content_wants_a_byte()
    ensures { EachWantsAByte }
{}
