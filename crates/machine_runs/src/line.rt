//! A printed number on a line.
ghost use Rattle.std.specs.Prelude.{◌≡◌, ◌≤◌, ◌<◌, ◌-◌, length, take, IfErr};
ghost use Rattle.std.specs.Io.KnownBytes.{append_known};
ghost use Rattle.rw_io.specs.States.{NoSinkCountFell};
ghost use Rattle.rw_io.specs.Whole.{left_of, HasCause, OffersAll};
ghost use Rattle.machine_runs.specs.Lines.{line_of};

use itoa::Buffer;
use rw_io::{Sink, Unwritten, put_whole};

/// The most bytes of a line.
const MAX_LINE: usize = 41;

/// Puts a number as decimal text and a newline, as one piece.
pub(crate) fn put_line<O: Sink>(out: &mut O, number: i64) -> Result<(), Unwritten>
    ensures left { left_of result ≤ length (line_of number) }
    ensures not_done { IfErr result (λ unwritten. 0 < unwritten.left) }
    ensures pieces { OffersAll O.puts out.old (line_of number) result out.new }
    ensures put { (O.state out.new).bytes ≡ append_known (O.state out.old).bytes (take (length (line_of number) - left_of result) (line_of number)) }
    ensures cause { IfErr result (λ unwritten. HasCause unwritten.stop (O.state out.old).faults (O.state out.new).faults
        (O.state out.old).stalls (O.state out.new).stalls) }
    ensures counts { NoSinkCountFell (O.state out.old) (O.state out.new) }
{
    let mut buffer = Buffer::new();
    let digits = buffer.format(number).as_bytes();
    let mut line = [b'\n'; MAX_LINE];
    line[..digits.len()].copy_from_slice(digits);
    put_whole(out, &line[..digits.len() + 1])
}
