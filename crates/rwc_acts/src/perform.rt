// The acts of a job, each done whole or stopped at a failure, a stall or want of memory.
ghost use Rattle.std.specs.Prelude.{◌≡◌, ◌≢◌, ◌⊎◌, true, map, string_bytes, IfOk};
ghost use Rattle.rw_io.specs.declared.whole.WriteStop.TheVariants.{Memory as NoMemory};
ghost use Rattle.rw_io.specs.States.{ShelfState, SinkState, NoShelfCountFell, NoSinkCountFell};
ghost use Rattle.rw_io.specs.Counts.{Rose};
ghost use Rattle.rwc_reports.specs.Acts.{create, append, put, outside_of};
ghost use Rattle.rwc_reports.specs.Jobs.{lines_job};
ghost use Rattle.rwc_reports.specs.Endings.{CarriesOut};
ghost use Rattle.rwc_reports.specs.Lines.{write_fault_line};
ghost use Rattle.rwc_acts.specs.Stops.{IfStop, IfStopped, Performs, status_of, line_of};

use crate::ending::{Done, Stop};
use rw_io::{PutError, Shelf, Sink, Unwritten, WriteStop, append_whole, put_whole};
use rwc_lines::lines;
use std::alloc::Global;

// A piece that was not written whole.
fn not_whole(alloc: Global, unwritten: Unwritten) -> Stop
    ensures { IfStop result (λ _ _. ⊥) (λ _. ⊥) (λ line. (line ≡ write_fault_line unwritten.left) × (unwritten.stop ≢ NoMemory)) }
{
    match unwritten.stop {
        WriteStop::Failed | WriteStop::Stalled => {
            Stop::unwritten(lines::write_fault(alloc, unwritten.left))
        }
        WriteStop::Memory => Stop::Memory,
    }
}

/// Begins a file under a name.
pub fn create_file<S: Shelf>(alloc: Global, shelf: &mut S, name: &str) -> Result<(), Stop>
    ensures performs { (out : SinkState) → Performs (create name.now) (outside_of (S.state shelf.old) out) (outside_of (S.state shelf.new) out) result }
    ensures cause { IfStopped result (λ _ _. ⊥) (λ _. ⊥) (λ _. Rose (S.state shelf.old).put_faults (S.state shelf.new).put_faults) }
    ensures counts { NoShelfCountFell (S.state shelf.old) (S.state shelf.new) }
{
    match shelf.create(name) {
        Ok(()) => Ok(()),
        Err(PutError::Failed) => Err(Stop::unwritten(lines::write_fault(alloc, 0))),
        Err(PutError::Memory) => Err(Stop::Memory),
    }
}

/// Appends a piece whole to what was created.
pub fn append_piece<S: Shelf>(alloc: Global, shelf: &mut S, piece: &[u8]) -> Result<(), Stop>
    requires { (S.state shelf.old).holding.has_created ≡ true }
    ensures performs { (out : SinkState) → Performs (append piece.now) (outside_of (S.state shelf.old) out) (outside_of (S.state shelf.new) out) result }
    ensures cause { IfStopped result (λ _ _. ⊥) (λ _. ⊥) (λ _. Rose (S.state shelf.old).put_faults (S.state shelf.new).put_faults
        ⊎ Rose (S.state shelf.old).stalls (S.state shelf.new).stalls) }
    ensures counts { NoShelfCountFell (S.state shelf.old) (S.state shelf.new) }
{
    match append_whole(shelf, piece) {
        Ok(()) => Ok(()),
        Err(unwritten) => Err(not_whole(alloc, unwritten)),
    }
}

/// Puts a piece whole.
pub fn put_piece<O: Sink>(alloc: Global, out: &mut O, piece: &[u8]) -> Result<(), Stop>
    ensures performs { (shelf : ShelfState) → Performs (put piece.now) (outside_of shelf (O.state out.old)) (outside_of shelf (O.state out.new)) result }
    ensures cause { IfStopped result (λ _ _. ⊥) (λ _. ⊥) (λ _. Rose (O.state out.old).faults (O.state out.new).faults
        ⊎ Rose (O.state out.old).stalls (O.state out.new).stalls) }
    ensures counts { NoSinkCountFell (O.state out.old) (O.state out.new) }
{
    match put_whole(out, piece) {
        Ok(()) => Ok(()),
        Err(unwritten) => Err(not_whole(alloc, unwritten)),
    }
}

/// Puts lines one after another, each a piece of its own.
pub fn put_lines<O: Sink>(alloc: Global, out: &mut O, lines: &[String]) -> Result<Done, Stop>
    ensures carries_out { (shelf : ShelfState) → CarriesOut (lines_job (map string_bytes lines.now) 0) (outside_of shelf (O.state out.old))
        (outside_of shelf (O.state out.new)) (status_of result) (line_of result) }
    ensures finished { IfOk result (λ done. done ≡ Done.Finished) }
    ensures causes { IfStopped result (λ _ _. ⊥) (λ _. ⊥) (λ _. Rose (O.state out.old).faults (O.state out.new).faults
        ⊎ Rose (O.state out.old).stalls (O.state out.new).stalls) }
{
    for line in lines {
        if let Err(stop) = put_piece(alloc, out, line.as_bytes()) {
            return Err(stop);
        }
    }
    Ok(Done::Finished)
}
