// From a source file to its lines.
ghost use Rattle.std.specs.Prelude.{◌≡◌, List, [], ◌∷◌};
ghost use Rattle.words.specs.Commands.{spelled_source};
ghost use Rattle.rwc_reports.specs.Shows.{ShowReports};
ghost use Rattle.rwc_acts.specs.Kept.{KeepsJob, LoadsTo};
ghost use Rattle.rwc_acts.specs.Stops.{IsStep};
ghost use Rattle.rwc_shows.specs.Shown.{lines_in, ShownLinesLead, TextShows};

use crate::lines::put_text;
use rw_io::{Shelf, Sink};
use rw_write::write;
use rwc_acts::{Done, Stop, load_file};
use rwc_texts::read_source;
use std::alloc::Global;
use words::SourceFile;

/// Reads a source and puts the canonical text of its module; this project's own.
pub fn show<S: Shelf, O: Sink>(
    alloc: Global,
    source: &SourceFile<'_>,
    shelf: &mut S,
    out: &mut O,
) -> Result<Done, Stop>
    ensures { KeepsJob (ShowReports (spelled_source source.now)) (source.now.file.now ∷ []) (0 ∷ 1 ∷ 3 ∷ []) (S.state shelf.old) (S.state shelf.new)
        (O.state out.old) (O.state out.new) result }
{
    match shown_text(alloc, source, shelf) {
        Ok(text) => put_text(alloc, out, &text),
        Err(stop) => Err(stop),
    }
}

// The canonical text of the module of a source file.
fn shown_text<S: Shelf>(
    alloc: Global,
    source: &SourceFile<'_>,
    shelf: &mut S,
) -> Result<Vec<u8>, Stop>
    ensures { LoadsTo lines_in (λ told. ShownLinesLead told (spelled_source source.now)) (1 ∷ 3 ∷ []) source.now.file.now (S.state shelf.old) (S.state shelf.new) result }
{
    match load_file(alloc, shelf, source.file) {
        Ok(bytes) => text_of(alloc, source, &bytes),
        Err(stop) => Err(stop),
    }
}

// The canonical text of the module that bytes spell.
fn text_of(alloc: Global, source: &SourceFile<'_>, bytes: &[u8]) -> Result<Vec<u8>, Stop>
    ensures { IsStep lines_in (TextShows (spelled_source source.now) bytes.now) result }
{
    match read_source(alloc, source, bytes) {
        Ok(module) => match write(alloc, &module) {
            Ok(text) => Ok(text),
            Err(_) => Err(Stop::Memory),
        },
        Err(stop) => Err(stop),
    }
}
