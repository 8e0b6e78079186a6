// Laws of reading: instructions, expressions and the entries that have them are read exactly where the grammar
// spells them.

ghost use Rattle.wasm_reading_bodies.specs.BodiesRead.{ConstantsNestNone, InstructionsHaveOneForm, ListsReadExactly, PlainReadExactly};
ghost use Rattle.wasm_reading_values.specs.EntriesRead.{CodeVectorsReadExactly, CodesReadExactly, ConstantsReadExactly, ElementsReadExactly, ExpressionsReadExactly, GlobalsReadExactly, SegmentsReadExactly, ShortExpressionsFit};

/// A law: instructions, lists of them, expressions and constant expressions are read exactly where the grammar
/// spells them, within the nesting of the profile; what fewer than 2^32 bytes spell fits its fields
/// (WebAssembly Core Specification 1.0, section 5.4).
pub fn instructions_are_read_exactly()
    ensures plain { PlainReadExactly }
    ensures list { ListsReadExactly }
    ensures expression { ExpressionsReadExactly }
    ensures short { ShortExpressionsFit }
    ensures constant { ConstantsReadExactly }
    ensures constant_nesting { ConstantsNestNone }
{}

/// A law: no spelling of an instruction within the nesting of the profile begins another one, and each spells one
/// instruction (WebAssembly Core Specification 1.0, section 5.4).
pub fn instructions_have_one_form()
    ensures { InstructionsHaveOneForm }
{}

/// A law: the entries of sections that have instructions are read exactly where the grammar spells entries of the
/// profile (WebAssembly Core Specification 1.0, sections 5.5.9, 5.5.12, 5.5.13 and 5.5.14).
pub fn bodies_are_read_exactly()
    ensures global { GlobalsReadExactly }
    ensures element { ElementsReadExactly }
    ensures segment { SegmentsReadExactly }
    ensures code { CodesReadExactly }
    ensures codes { CodeVectorsReadExactly }
{}
