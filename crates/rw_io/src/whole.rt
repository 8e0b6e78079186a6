// A whole piece is written: what was not taken is offered again, until the end, a fault or a stall.
ghost use Rattle.std.specs.Prelude.{◌≡◌, ◌≤◌, ◌<◌, ◌-◌, true, length, take, IfErr, Ok, Err};
ghost use Rattle.std.specs.Io.KnownBytes.{append_known};
ghost use Rattle.rw_io.specs.States.{NoShelfCountFell, NoSinkCountFell, appended};
ghost use Rattle.rw_io.specs.Whole.{left_of, stop_of, HasCause, OffersAll};

use crate::{PutError, Shelf, Sink};
use thiserror::Error;

/// Why a piece was not written whole; this project's own.
#[derive(Clone, Copy, Debug, PartialEq, Eq)]
pub enum WriteStop {
    /// The outside failed, and counted it.
    Failed,
    /// Nothing of a nonempty piece was taken, and the outside counted it.
    Stalled,
    /// Memory was wanting.
    Memory,
}

/// What ended the writing of a piece, and how many of its bytes were not taken; this project's own.
#[derive(Clone, Copy, Debug, PartialEq, Eq, Error)]
#[error("{left} bytes were not written")]
pub struct Unwritten {
    pub stop: WriteStop,
    pub left: usize,
}

impl Unwritten {
    fn failed(error: PutError, left: usize) -> Unwritten
        ensures { result ≡ record { stop = stop_of (Err error); left = left } }
    {
        match error {
            PutError::Failed => Unwritten {
                stop: WriteStop::Failed,
                left,
            },
            PutError::Memory => Unwritten {
                stop: WriteStop::Memory,
                left,
            },
        }
    }

    fn stalled(left: usize) -> Unwritten
        ensures { result ≡ record { stop = WriteStop.Stalled; left = left } }
    {
        Unwritten {
            stop: WriteStop::Stalled,
            left,
        }
    }
}

/// Puts a piece whole: it is offered as one piece, and then its rest, until a turn takes nothing of it.
/// An error tells what the last call answered, and how many bytes at the end of the piece were not put.
pub fn put_whole<O: Sink>(out: &mut O, piece: &[u8]) -> Result<(), Unwritten>
    ensures left { left_of result ≤ length piece.now }
    ensures not_done { IfErr result (λ unwritten. 0 < unwritten.left) }
    ensures pieces { OffersAll O.puts out.old piece.now result out.new }
    ensures put { (O.state out.new).bytes ≡ append_known (O.state out.old).bytes (take (length piece.now - left_of result) piece.now) }
    ensures cause { IfErr result (λ unwritten. HasCause unwritten.stop (O.state out.old).faults (O.state out.new).faults
        (O.state out.old).stalls (O.state out.new).stalls) }
    ensures counts { NoSinkCountFell (O.state out.old) (O.state out.new) }
{
    let mut at = 0;
    while at < piece.len() {
        let left = piece.len() - at;
        match out.put(&piece[at..]) {
            Ok(0) => return Err(Unwritten::stalled(left)),
            Ok(count) => at += count,
            Err(error) => return Err(Unwritten::failed(error, left)),
        }
    }
    Ok(())
}

/// Appends a piece whole to what was created: it is offered as one piece, and then its rest, until a turn takes
/// nothing of it.
/// An error tells what the last call answered, and how many bytes at the end of the piece were not appended.
pub fn append_whole<S: Shelf>(shelf: &mut S, piece: &[u8]) -> Result<(), Unwritten>
    requires { (S.state shelf.old).holding.has_created ≡ true }
    ensures left { left_of result ≤ length piece.now }
    ensures not_done { IfErr result (λ unwritten. 0 < unwritten.left) }
    ensures pieces { OffersAll S.appends shelf.old piece.now result shelf.new }
    ensures appended { (S.state shelf.new).holding ≡ appended (take (length piece.now - left_of result) piece.now) (S.state shelf.old).holding }
    ensures cause { IfErr result (λ unwritten. HasCause unwritten.stop (S.state shelf.old).put_faults (S.state shelf.new).put_faults
        (S.state shelf.old).stalls (S.state shelf.new).stalls) }
    ensures counts { NoShelfCountFell (S.state shelf.old) (S.state shelf.new) }
{
    let mut at = 0;
    while at < piece.len() {
        let left = piece.len() - at;
        match shelf.append(&piece[at..]) {
            Ok(0) => return Err(Unwritten::stalled(left)),
            Ok(count) => at += count,
            Err(error) => return Err(Unwritten::failed(error, left)),
        }
    }
    Ok(())
}
