// The command `exec`: a binary is decoded, validated and run.
ghost use Rattle.words.specs.Commands.{spelled_exec};
ghost use Rattle.rwc_acts.specs.Kept.{KeepsCommand};

use rw_io::{Shelf, Sink};
use rwc_acts::{Done, Stop, load_file};
use rwc_runs::execute;
use std::alloc::Global;
use words::Exec;

/// Runs a binary for so many steps at most.
pub fn exec<S: Shelf, O: Sink>(
    alloc: Global,
    words: &Exec<'_>,
    shelf: &mut S,
    out: &mut O,
) -> Result<Done, Stop>
    ensures { KeepsCommand (spelled_exec words.now) (S.state shelf.old) (S.state shelf.new) (O.state out.old) (O.state out.new) result }
{
    match load_file(alloc, shelf, words.file) {
        Ok(bytes) => execute(alloc, words.file, &bytes, words.steps, out),
        Err(stop) => Err(stop),
    }
}
