//! A driver of runs: a line of its input is a number of steps and a binary in hex, with a blank between them. It gets the numbers
//! that the binary prints, each on a line, and then a line:
//!
//! - `result N after K steps`, `trap T after K steps`, or `spent after K steps`;
//! - `start import I`, `start segment I` or `start no main`: why the module does not start;
//! - `invalid function F at N RULE`: the first violation, with `-` for no function;
//! - `malformed at N FAULT`: the first fault of a binary that is not decoded.
//!
//! Behind the word `step` the machine makes each step by itself. Behind the word `look` two lines more tell how many bytes the
//! memory has, with the numbers and values of those that are not 0, and the globals. Behind the word `sink` stand two numbers more:
//! the lines go into a sink whose put with the first number fails, counted from 0, and which takes as many bytes a put as the second
//! number says; the run is taken up again behind a fault, at most three times, and each way that it stopped is told, and then the bytes
//! that were taken.
#![tactic(auto)]

mod answer;
mod execution;

use crate::execution::execute;
use std::io;

fn main(rt: HostRuntime) -> io::Result<()> {
    for line in rt.lines(rt.alloc()) {
        let line = line?;
        execute(&rt, &line)?;
    }
    Ok(())
}
