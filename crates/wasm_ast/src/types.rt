use bounded_list::List;

/// A value type of the profile (WebAssembly Core Specification 1.0, section 2.3.1).
#[derive(Clone, Copy, Debug, PartialEq, Eq)]
pub enum ValTy {
    I32,
    I64,
}

/// A function type (section 2.3.3); in this project's profile there is at most one result.
#[derive(Debug, Drop)]
pub struct FuncType {
    pub params: List<ValTy>,
    pub result: Option<ValTy>,
}

/// The size of a memory, in pages of 65,536 bytes, or of a table, in entries (section 2.3.4).
#[derive(Clone, Copy, Debug, PartialEq, Eq)]
pub struct Limits {
    pub min: u32,
    pub max: Option<u32>,
}
