ghost use Rattle.wasm_ast.specs.OpcodeLaws.{OpcodesTellApart, OpcodesAreBytes};
ghost use Rattle.wasm_ast.specs.WorkedOpcodes.{WorkedOpcodes};

/// A law: no two instructions have the same opcode and the same immediates, and an opcode is a byte.
pub fn opcodes_tell_apart()
    ensures apart { OpcodesTellApart }
    ensures bytes { OpcodesAreBytes }
{}

/// Instructions of the standard's index have the opcodes and immediates that are written out for them there, and are
/// told by these.
pub fn worked_opcodes()
    ensures { WorkedOpcodes }
{}
