// What a call of the tool does, as a line.
use crate::case::Case;
use hex::encode;
use rw_io::{MemShelf, MemSink};
use rwc::rwc;
use std::alloc::{AllocError, Global};

/// The answer to a case, as a line.
pub fn answer(alloc: Global, case: Case) -> Result<Vec<u8>, AllocError> {
    let mut shelf = MemShelf::new(alloc, case.files, case.shelf.fails, case.shelf.most);
    let mut out = MemSink::new(alloc, case.out.fails, case.out.most);
    let mut err = MemSink::new(alloc, case.err.fails, case.err.most);
    let status = rwc(alloc, &case.words, &mut shelf, &mut out, &mut err);
    let mut line = format!(in alloc; "status={}", status.0)?.into_bytes();
    push_text(&mut line, b"out", out.bytes())?;
    push_text(&mut line, b"err", err.bytes())?;
    push_created(alloc, &mut line, &shelf)?;
    push_counts(alloc, &mut line, &shelf, &out, &err)?;
    Ok(line)
}

fn push_text(line: &mut Vec<u8>, key: &[u8], text: &[u8]) -> Result<(), AllocError> {
    line.push(b'\t')?;
    line.extend_from_slice(key)?;
    line.push(b'=')?;
    for byte in text {
        match byte {
            b'\n' => line.extend_from_slice(b"%0A")?,
            _ => line.push(*byte)?,
        }
    }
    Ok(())
}

fn push_created(alloc: Global, line: &mut Vec<u8>, shelf: &MemShelf) -> Result<(), AllocError> {
    if let (Some(name), Some(bytes)) = (shelf.created_name(), shelf.created()) {
        push_text(line, b"created", name.as_bytes())?;
        line.push(b':')?;
        line.extend_from_slice(encode(alloc, bytes)?.as_bytes())?;
    }
    Ok(())
}

fn push_counts(
    alloc: Global,
    line: &mut Vec<u8>,
    shelf: &MemShelf,
    out: &MemSink,
    err: &MemSink,
) -> Result<(), AllocError> {
    let (loads, puts, stalls) = (shelf.load_faults(), shelf.put_faults(), shelf.stalls());
    let (out_faults, out_stalls) = (out.faults(), out.stalls());
    let (err_faults, err_stalls) = (err.faults(), err.stalls());
    let counts = format!(in alloc;
        "\tshelf={loads},{puts},{stalls}\tsinks={out_faults},{out_stalls},{err_faults},{err_stalls}\n"
    )?;
    line.extend_from_slice(counts.as_bytes())
}
