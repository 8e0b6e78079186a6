//! The outside: a shelf of files and a sink of bytes, as traits with a written meaning, in memory and over the system.
//! Definitions: `States` and `Files` (what is told), `CountedCalls` (what a call counts), `Whole` and `Taken` (a piece that
//! is offered whole), `MemStates` and `OsStates` (the forms). Laws: what calls took of a piece is its front.
#![tactic(auto)]

mod counts;
mod error;
mod laws;
mod mem;
mod os;
mod shelf;
mod sink;
mod whole;

pub use error::{LoadError, PutError};
pub use laws::{appends_take_the_front, puts_take_the_front};
pub use mem::{MemShelf, MemSink};
pub use os::{OsShelf, OsSink};
pub use shelf::Shelf;
pub use sink::Sink;
pub use whole::{Unwritten, WriteStop, append_whole, put_whole};
