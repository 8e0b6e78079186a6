// The command `build`: a binary is made of a file, created under a name, and a line says so.
ghost use Rattle.std.specs.Prelude.{◌≡◌, IfOk};
ghost use Rattle.rw_io.specs.States.{NoShelfCountFell};
ghost use Rattle.words.specs.Commands.{spelled_build, InRanges};
ghost use Rattle.words.specs.Words.{HasFiles};
ghost use Rattle.rwc_reports.specs.Acts.{outside_of};
ghost use Rattle.rwc_reports.specs.Endings.{CarriesOut, WriteRose};
ghost use Rattle.rwc_reports.specs.Reports.{build_job};
ghost use Rattle.rwc_acts.specs.Kept.{KeepsCommand};
ghost use Rattle.rwc_acts.specs.Stops.{IfStopped, status_of, line_of};

use lower::Pages;
use rw_io::{Shelf, Sink};
use rwc_acts::{Done, Stop, append_piece, create_file, put_piece};
use rwc_lines::lines;
use rwc_sources::compile;
use std::alloc::Global;
use words::Build;

/// Builds a binary of a file, creates it under a name, and says so.
pub fn build<S: Shelf, O: Sink>(
    alloc: Global,
    words: &Build<'_>,
    shelf: &mut S,
    out: &mut O,
) -> Result<Done, Stop>
    requires files { HasFiles (spelled_build words.now) }
    requires ranges { InRanges (spelled_build words.now) }
    ensures { KeepsCommand (spelled_build words.now) (S.state shelf.old) (S.state shelf.new) (O.state out.old) (O.state out.new) result }
{
    let pages = Pages {
        lin: words.lin,
        unr: words.unr,
    };
    match compile(alloc, &pages, &words.source, shelf) {
        Ok(binary) => deliver(alloc, words.name, &binary, shelf, out),
        Err(stop) => Err(stop),
    }
}

/// Creates a binary under a name, and says so.
fn deliver<S: Shelf, O: Sink>(
    alloc: Global,
    name: &str,
    binary: &[u8],
    shelf: &mut S,
    out: &mut O,
) -> Result<Done, Stop>
    ensures carries_out { CarriesOut (build_job name.now binary.now) (outside_of (S.state shelf.old) (O.state out.old))
        (outside_of (S.state shelf.new) (O.state out.new)) (status_of result) (line_of result) }
    ensures finished { IfOk result (λ done. done ≡ Done.Finished) }
    ensures causes { IfStopped result (λ _ _. ⊥) (λ _. ⊥)
        (λ _. WriteRose (S.state shelf.old) (S.state shelf.new) (O.state out.old) (O.state out.new)) }
    ensures counts { NoShelfCountFell (S.state shelf.old) (S.state shelf.new) }
{
    let Ok(line) = lines::wrote(alloc, name, binary.len()) else {
        return Err(Stop::Memory);
    };
    if let Err(stop) = create_file(alloc, shelf, name) {
        return Err(stop);
    }
    if let Err(stop) = append_piece(alloc, shelf, binary) {
        return Err(stop);
    }
    if let Err(stop) = put_piece(alloc, out, line.as_bytes()) {
        return Err(stop);
    }
    Ok(Done::Finished)
}
