//! The words of the command line, read by their plain form.
//! Definitions: the words that spell a command (specs/Words.antt), the names of source files (specs/Sources.antt).
//! Laws: words spell one command at most, or none; which names are source files.
#![tactic(auto)]

mod files;
mod laws;
mod numbers;
mod options;
mod plain;

pub use files::source_file;
pub use laws::{a_command_or_none, one_command, source_files};
pub use numbers::number;
pub use plain::plain_command;

/// One command with its options and files; this project's own.
#[derive(Clone, Copy)]
pub enum Command<'a> {
    Build(Build<'a>),
    Run(Run<'a>),
    Exec(Exec<'a>),
    Show(Show<'a>),
    Dump(Dump<'a>),
}

/// The command `build`: a binary under `name` of the file `source`, with `lin` pages of the linear part and `unr`
/// pages of the unrestricted region, of 65,536 bytes each; this project's own.
#[derive(Clone, Copy)]
pub struct Build<'a> {
    pub lin: u32,
    pub unr: u32,
    pub name: &'a str,
    pub source: SourceFile<'a>,
}

/// The command `run`: a run of the file `source` of `steps` steps at most, with `lin` pages of the linear part and
/// `unr` pages of the unrestricted region, of 65,536 bytes each; this project's own.
#[derive(Clone, Copy)]
pub struct Run<'a> {
    pub lin: u32,
    pub unr: u32,
    pub steps: u64,
    pub source: SourceFile<'a>,
}

/// The command `exec`: a run of the binary `file` of `steps` steps at most; this project's own.
#[derive(Clone, Copy)]
pub struct Exec<'a> {
    pub steps: u64,
    pub file: &'a str,
}

/// The command `show`: the canonical text of the file `source`; this project's own.
#[derive(Clone, Copy)]
pub struct Show<'a> {
    pub source: SourceFile<'a>,
}

/// The language of a source; this project's own.
#[derive(Clone, Copy, Debug, PartialEq, Eq)]
pub enum SourceKind {
    Rich,
}

/// A source file: the word that names it, the name of its module, and its language; this project's own.
#[derive(Clone, Copy)]
pub struct SourceFile<'a> {
    pub file: &'a str,
    pub name: &'a [u8],
    pub kind: SourceKind,
}

/// The command `dump`: the counts of the binary `file`; this project's own.
#[derive(Clone, Copy)]
pub struct Dump<'a> {
    pub file: &'a str,
}
