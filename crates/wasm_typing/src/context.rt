use wasm_ast::{FuncType, List, ValTy};

/// The type of a global: that of its value, and whether it may be set (WebAssembly Core Specification 1.0, section 2.3.6).
#[derive(Clone, Copy, Debug, PartialEq, Eq)]
pub struct GlobalType {
    pub ty: ValTy,
    pub mutable: bool,
}

/// What instructions are typed under (section 3.1.1): types, the types of all functions, how many tables and memories
/// there are, the types of all globals, and of the function that is typed its locals and its result. Labels stand apart.
#[derive(Debug, Drop)]
pub struct Context {
    pub types: List<FuncType>,
    pub functions: List<FuncType>,
    pub tables: u32,
    pub memories: u32,
    pub globals: List<GlobalType>,
    pub locals: List<ValTy>,
    pub result: Option<ValTy>,
}
