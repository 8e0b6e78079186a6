/// A section that stands before the code section, and has rules.
#[derive(Clone, Copy, Debug, PartialEq, Eq)]
pub enum Section {
    Imports,
    Functions,
    Tables,
    Memories,
    Globals,
    Exports,
    Start,
    Elements,
}
