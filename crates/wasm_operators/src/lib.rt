//! The integer operators of WebAssembly by name, for both widths (WebAssembly Core Specification 1.0, section 2.4.1).
//! What they compute stands in `wasm_num`; the trees of instructions name them.
#![tactic(auto)]

/// The width of an integer, in bits.
#[derive(Clone, Copy, Debug, PartialEq, Eq)]
pub enum Width {
    W32,
    W64,
}

/// An operator of one integer.
#[derive(Clone, Copy, Debug, PartialEq, Eq)]
pub enum UnOp {
    Clz,
    Ctz,
    Popcnt,
}

/// An operator of two integers.
#[derive(Clone, Copy, Debug, PartialEq, Eq)]
pub enum BinOp {
    Add,
    Sub,
    Mul,
    DivS,
    DivU,
    RemS,
    RemU,
    And,
    Or,
    Xor,
    Shl,
    ShrS,
    ShrU,
    Rotl,
    Rotr,
}

/// A comparison of two integers.
#[derive(Clone, Copy, Debug, PartialEq, Eq)]
pub enum CmpOp {
    Eq,
    Ne,
    LtS,
    LtU,
    GtS,
    GtU,
    LeS,
    LeU,
    GeS,
    GeU,
}

/// A conversion from one width to the other.
#[derive(Clone, Copy, Debug, PartialEq, Eq)]
pub enum CvtOp {
    Wrap,
    ExtendS,
    ExtendU,
}
