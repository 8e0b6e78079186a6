//! What instructions find in a typed configuration of a running WebAssembly module (WebAssembly Core Specification 1.0, appendix
//! A.5). Its law: a plain instruction finds its operands, of their widths, its variables, and room for what it puts on top, where
//! there is room for the height of the code that runs. Definitions: `HasRoom` and `Finds`.
#![tactic(auto)]

ghost use Rattle.wasm_machine_finds.specs.Laws.{TypedFinds};

/// A law: an instruction of a typed configuration finds what it has to find.
pub fn instructions_find_what_they_take()
    ensures { TypedFinds }
{}
