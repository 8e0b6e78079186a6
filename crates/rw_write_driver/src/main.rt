//! A driver of the writer of Rich texts: each line of standard input is a text, and gets a line.
//!
//! In a line `|` stands for a newline. A line that begins with `hex ` is a text in hex. The answers:
//!
//! - the canonical text of the module, with `|` for each newline;
//! - `none`: the text is not read, or memory is wanting;
//! - `unread`: the line is no hex.
#![tactic(auto)]

mod answer;

use crate::answer::answer_to;
use std::io::{self, BufWriter, Read, Write};

fn main(rt: HostRuntime) -> io::Result<()> {
    let alloc = rt.alloc();
    let mut input = Vec::new(alloc);
    rt.reader().read_to_end(&mut input)?;
    let mut out = BufWriter::new(alloc, io::writer(&rt))?;
    for line in input.split_inclusive(|byte| *byte == b'\n') {
        out.write_all(answer_to(alloc, line).as_bytes())?;
        out.write_all(b"\n")?;
    }
    out.flush()
}
