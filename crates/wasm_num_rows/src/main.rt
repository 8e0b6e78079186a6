//! A driver: each line of standard input names an operation of integers and its operands, `i32.add 1 2`, and gets a
//! line with the answer, or the trap.
#![tactic(auto)]

mod operations;

use crate::operations::{Answer, answer_to};
use std::io::{self, BufRead, BufReader, BufWriter, Write};
use wasm_num::NumTrap;

fn main(rt: HostRuntime) -> io::Result<()> {
    let alloc = rt.alloc();
    let mut out = BufWriter::new(alloc, io::writer(&rt))?;
    for line in BufReader::new(alloc, rt.reader())?.lines(alloc) {
        match answer_to(line?.as_str()) {
            Answer::Value(value) => writeln!(out, "{value}")?,
            Answer::Trap(NumTrap::DivideByZero) => writeln!(out, "divide-by-zero")?,
            Answer::Trap(NumTrap::Overflow) => writeln!(out, "overflow")?,
            Answer::Unread => writeln!(out, "unread")?,
        }
    }
    out.flush()
}
