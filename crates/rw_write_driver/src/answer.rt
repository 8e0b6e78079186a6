//! What a line is answered with.

use rw_read::read;
use rw_types::Module;
use rw_write::write;
use std::alloc::{AllocError, Global};

/// What is told of a text.
#[derive(Drop)]
pub(crate) enum Answer {
    /// The canonical text of its module, with `|` for each newline.
    Written(Vec<u8>),
    /// The text is not read, or memory is wanting.
    NotWritten,
    /// The line is no hex.
    Unread,
}

impl Answer {
    /// The line, without its newline.
    pub(crate) fn as_bytes(&self) -> &[u8] {
        match self {
            Answer::Written(text) => text.as_slice(),
            Answer::NotWritten => b"none",
            Answer::Unread => b"unread",
        }
    }
}

/// The answer to a line, with the newline behind it.
pub(crate) fn answer_to(alloc: Global, line: &[u8]) -> Answer {
    match text_of(alloc, line) {
        Some(text) => answer_of(alloc, &text),
        None => Answer::Unread,
    }
}

fn answer_of(alloc: Global, text: &[u8]) -> Answer {
    match read(alloc, text) {
        Ok(module) => canonical_line(alloc, &module).map_or(Answer::NotWritten, Answer::Written),
        Err(_) => Answer::NotWritten,
    }
}

fn canonical_line(alloc: Global, module: &Module) -> Option<Vec<u8>> {
    let text = write(alloc, module).ok()?;
    replaced(alloc, &text, b'\n', b'|').ok()
}

/// The text that a line stands for.
fn text_of(alloc: Global, line: &[u8]) -> Option<Vec<u8>> {
    let line = line.strip_suffix(b"\n").unwrap_or(line);
    match line.strip_prefix(b"hex ") {
        Some(digits) => hex::decode(alloc, str::from_utf8(digits).ok()?).ok(),
        None => replaced(alloc, line, b'|', b'\n').ok(),
    }
}

/// The bytes, with one of them put in place of another.
fn replaced(alloc: Global, bytes: &[u8], old: u8, new: u8) -> Result<Vec<u8>, AllocError> {
    let mut text = Vec::with_capacity(alloc, bytes.len())?;
    for byte in bytes {
        text.push(if *byte == old { new } else { *byte })?;
    }
    Ok(text)
}
