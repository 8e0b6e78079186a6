use rw_types::{Binder, List, Ty};

/// What the point before one instruction tells; this project's own.
#[derive(Drop)]
pub struct Note {
    /// The binders around the instruction, the outermost first.
    pub binders: List<Binder>,
    /// The words of all operands of the frame that lie beneath what the instruction takes.
    pub beneath: u64,
    /// The types that the instruction takes, the top operand last.
    pub taken: List<Ty>,
    /// The type of the local that the instruction names.
    pub local: Option<Ty>,
}

/// A place in a module: a field by its number, and within a body the path to it. A path is the
/// position in the list, then for each nested list its arm and the position in it. This project's own.
#[derive(Drop)]
pub enum Place {
    FuncType(u32),
    FuncAt(u32, List<u32>),
    GlobalType(u32),
    GlobalAt(u32, List<u32>),
    ImportType(u32),
    ExportAt(u32),
}
