//! The driver: calls of the tool over a shelf and sinks in memory, read from standard input, a case a line; what each
//! call does is printed, an answer a line. `scripts/rows` writes the cases and the answers that are wanted.
//!
//! A case is its fields `KEY=VALUE`, in any order, with a tab between two.
//!
//! - `word=TEXT`: the next word after the program's name.
//! - `text=NAME:TEXT`, `hex=NAME:BYTES`, `zeros=NAME:N`: the next file of the shelf, and its content as text, in hex, or
//!   so many bytes 0.
//! - `shelf-fails=N`, `out-fails=N`, `err-fails=N`: the call with this number fails, counted from 0 over all calls of the
//!   shelf, of standard output or of standard error.
//! - `shelf-takes=N`, `out-takes=N`, `err-takes=N`: each call takes at most so many bytes of its piece.
//!
//! An answer is the fields `status=N`, `out=TEXT` and `err=TEXT`, what was put to the two sinks, with `%0A` for the end of
//! a line; `created=NAME:BYTES` in hex, where something was created; `shelf=L,P,S`, how many loads failed, how many creates
//! and appends failed, and how many appends stalled; and `sinks=F,S,F,S`, how many puts failed and stalled, of standard
//! output and of standard error.
#![tactic(auto)]

mod answer;
mod case;

use answer::answer;
use case::read_case;
use std::io::{self, Write};

fn main(rt: HostRuntime) -> io::Result<()> {
    let alloc = rt.alloc();
    let cases = io::read_to_string(alloc, rt.reader())?;
    let mut out = io::writer(&rt);
    for line in cases.lines() {
        let case = read_case(alloc, line)?;
        out.write_all(&answer(alloc, case)?)?;
    }
    Ok(())
}
