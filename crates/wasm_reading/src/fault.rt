// What may be wrong with the bytes of a module, and where.

/// What is wrong with a binary module. Source: this project's own list; the rules are those of the WebAssembly
/// Core Specification 1.0, chapter 5.
#[derive(Clone, Copy, Debug, PartialEq, Eq)]
pub enum DecodeFault {
    /// The input ends inside the preamble or a section.
    Truncated,
    /// A byte of the magic number is wrong.
    BadMagic,
    /// A byte of the version is wrong.
    BadVersion,
    /// A number is not LEB128 of its size.
    BadLeb,
    /// A byte is no id, kind, type, opcode, mutability, limits tag or demanded byte.
    BadTag,
    /// A section's id is repeated or does not rise.
    BadOrder,
    /// A declared size and what it measures differ.
    BadLength,
    /// A name is not UTF-8.
    BadUtf8,
    /// There are not as many codes as functions.
    CountMismatch,
    /// A type or an instruction of floating point.
    FloatOutside,
    /// A number or a nesting over a limit of this project's profile.
    LimitOutside,
    /// No memory was left; its place is 0.
    Memory,
}

/// A fault and its place: how many bytes stand before it.
#[derive(Clone, Copy, Debug, PartialEq, Eq)]
pub struct DecodeError {
    pub at: u64,
    pub fault: DecodeFault,
}
