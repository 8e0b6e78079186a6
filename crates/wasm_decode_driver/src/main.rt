//! A program that decodes cases: a line of its input is a case, each way in which it is read answers a line.
//!
//! A case has words between single blanks: its bytes in hex (`-` for none), and the ways in which they are read.
//!
//! - `whole`: decoded at once; `bytes`: fed byte by byte; `3+0+5`: fed in pieces of these lengths and one of what is left.
//!   The answer is the module's counts, whether the bytes are its canonical ones, whether a copy of it is the same, and
//!   whether it comes back from its canonical bytes; or the place and the name of the first fault.
//! - `form`: the canonical bytes of the module that they spell, or the first fault.
//! - `same:HEX`: whether these other bytes spell the same module.
//!
//! A line that begins with `#` is a comment.
#![tactic(auto)]

mod answer;
mod feeding;
mod summary;

use crate::answer::Answer;
use std::alloc::Global;
use std::io;

/// The most bytes that a case has.
const MOST: usize = 1_000_000;

fn main(rt: HostRuntime) -> io::Result<()> {
    for line in rt.lines(rt.alloc()) {
        let line = line?;
        if !line.starts_with('#') {
            run_case(&rt, rt.alloc(), &line)?;
        }
    }
    Ok(())
}

/// Answers each way of a case.
fn run_case(rt: &impl Print, alloc: Global, line: &str) -> io::Result<()> {
    let mut words = line.split(' ');
    let input = bytes_of(alloc, words.next().unwrap_or("-"));
    for way in words {
        match read(alloc, &input, way) {
            Some(answer) => println!(rt; "{answer}")?,
            None => println!(rt; "no such way: {way}")?,
        }
    }
    Ok(())
}

/// The bytes of a word in hex; none where it is not that.
fn bytes_of(alloc: Global, word: &str) -> Vec<u8> {
    hex::decode(alloc, word).unwrap_or(Vec::new(alloc))
}

/// The answer to an input that is read in this way, if there is such a way.
fn read(alloc: Global, input: &[u8], way: &str) -> Option<Answer> {
    if input.len() > MOST {
        return None;
    }
    if let Some(other) = way.strip_prefix("same:") {
        return Some(answer::likeness(alloc, input, &bytes_of(alloc, other)));
    }
    match way {
        "whole" => Some(answer::whole(alloc, input)),
        "bytes" => Some(answer::bytes(alloc, input)),
        "form" => Some(answer::form(alloc, input)),
        _ => Some(answer::pieces(alloc, input, &lengths_of(alloc, way)?)),
    }
}

/// The numbers of `3+0+5`.
fn lengths_of(alloc: Global, way: &str) -> Option<Vec<usize>> {
    let mut lengths = Vec::new(alloc);
    for word in way.split('+') {
        lengths.push(word.parse().ok()?).ok()?;
    }
    Some(lengths)
}
