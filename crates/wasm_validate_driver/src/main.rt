//! A driver of validation: a line of its input is a binary in hex, and gets a line.
//!
//! - `valid`, or `heights` and the height of each code where the line begins with the word `heights`;
//! - `invalid function F at N RULE`: the first violation, with `-` for no function;
//! - `malformed at N FAULT`: the first fault of a binary that is not decoded.
#![tactic(auto)]

mod answer;

use crate::answer::answer_to;
use std::io;

fn main(rt: HostRuntime) -> io::Result<()> {
    for line in rt.lines(rt.alloc()) {
        let line = line?;
        let answer = answer_to(rt.alloc(), &line);
        println!(rt; "{answer}")?;
    }
    Ok(())
}
