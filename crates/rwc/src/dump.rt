// The command `dump`: a binary is decoded, and a line is put for each of its counts.
ghost use Rattle.words.specs.Words.{dump as dump_of};
ghost use Rattle.rwc_acts.specs.Kept.{KeepsCommand};

use rw_io::{Shelf, Sink};
use rwc_acts::{Done, Stop, put_lines};
use rwc_binaries::lines_of_file;
use std::alloc::Global;

/// Decodes a binary and puts its counts.
pub fn dump<S: Shelf, O: Sink>(
    alloc: Global,
    file: &str,
    shelf: &mut S,
    out: &mut O,
) -> Result<Done, Stop>
    ensures { KeepsCommand (dump_of file.now) (S.state shelf.old) (S.state shelf.new) (O.state out.old) (O.state out.new) result }
{
    match lines_of_file(alloc, file, shelf) {
        Ok(lines) => put_lines(alloc, out, &lines),
        Err(stop) => Err(stop),
    }
}
