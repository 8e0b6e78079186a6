// The command `run`: a binary is made of a file, and run.
ghost use Rattle.words.specs.Commands.{spelled_run, InRanges};
ghost use Rattle.words.specs.Words.{HasFiles};
ghost use Rattle.rwc_acts.specs.Kept.{KeepsCommand};

use lower::Pages;
use rw_io::{Shelf, Sink};
use rwc_acts::{Done, Stop};
use rwc_runs::execute;
use rwc_sources::compile;
use std::alloc::Global;
use words::Run;

/// Runs the binary of a file for so many steps at most.
pub fn run<S: Shelf, O: Sink>(
    alloc: Global,
    words: &Run<'_>,
    shelf: &mut S,
    out: &mut O,
) -> Result<Done, Stop>
    requires files { HasFiles (spelled_run words.now) }
    requires ranges { InRanges (spelled_run words.now) }
    ensures { KeepsCommand (spelled_run words.now) (S.state shelf.old) (S.state shelf.new) (O.state out.old) (O.state out.new) result }
{
    let pages = Pages {
        lin: words.lin,
        unr: words.unr,
    };
    match compile(alloc, &pages, &words.source, shelf) {
        Ok(binary) => execute(alloc, words.source.file, &binary, words.steps, out),
        Err(stop) => Err(stop),
    }
}
