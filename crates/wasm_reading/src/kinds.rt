// What follows the opcode of an instruction.

/// What follows the opcode of an instruction that nests none (WebAssembly Core Specification 1.0, section 5.4).
#[derive(Clone, Copy, Debug, PartialEq, Eq)]
pub enum ImmediateKind {
    /// Nothing.
    Bare,
    /// An index.
    Index,
    /// A vector of labels, and the default label.
    Labels,
    /// The index of a type and a zero byte.
    IndexZero,
    /// A zero byte.
    Zero,
    /// An alignment exponent and an offset.
    MemArg,
    /// An s32.
    Const32,
    /// An s64.
    Const64,
}
