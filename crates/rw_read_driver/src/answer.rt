//! What a line is answered with.

use rw_read::{TextError, read};
use rw_types::Module;
use std::alloc::{AllocError, Global};
use std::fmt::{self, Display, Formatter, Write};

/// How many fields of each kind a module has.
#[derive(Drop)]
pub(crate) struct Counts {
    imports: usize,
    funcs: usize,
    globals: usize,
    exports: usize,
}

/// What is told of a text.
#[derive(Drop)]
pub(crate) enum Answer {
    Read(Counts),
    Failed(TextError),
    /// The line is no hex.
    Unread,
}

impl Display for Answer {
    fn fmt<W: Write>(&self, f: &mut Formatter<W>) -> fmt::Result {
        match self {
            Answer::Read(counts) => write!(
                f,
                "ok {} {} {} {}",
                counts.imports, counts.funcs, counts.globals, counts.exports
            ),
            Answer::Failed(error) => {
                write!(f, "{:?} at {}:{}", error.fault, error.line, error.column)
            }
            Answer::Unread => f.write_str("unread"),
        }
    }
}

/// The answer to a line, with the newline behind it.
pub(crate) fn answer_to(alloc: Global, line: &[u8]) -> Answer {
    match text_of(alloc, line) {
        Some(text) => answer_of(alloc, &text),
        None => Answer::Unread,
    }
}

fn answer_of(alloc: Global, text: &[u8]) -> Answer {
    match read(alloc, text) {
        Ok(module) => Answer::Read(counts_of(&module)),
        Err(error) => Answer::Failed(error),
    }
}

fn counts_of(module: &Module) -> Counts {
    Counts {
        imports: module.imports.len(),
        funcs: module.funcs.len(),
        globals: module.globals.len(),
        exports: module.exports.len(),
    }
}

/// The text that a line stands for.
fn text_of(alloc: Global, line: &[u8]) -> Option<Vec<u8>> {
    let line = line.strip_suffix(b"\n").unwrap_or(line);
    match line.strip_prefix(b"hex ") {
        Some(digits) => hex::decode(alloc, str::from_utf8(digits).ok()?).ok(),
        None => with_newlines(alloc, line).ok(),
    }
}

fn with_newlines(alloc: Global, line: &[u8]) -> Result<Vec<u8>, AllocError> {
    let mut text = Vec::with_capacity(alloc, line.len())?;
    for byte in line {
        text.push(if *byte == b'|' { b'\n' } else { *byte })?;
    }
    Ok(text)
}
