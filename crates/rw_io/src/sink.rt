// A sink takes bytes in pieces.
ghost use Rattle.std.specs.Prelude.{◌≡◌, ◌≢◌, ◌≤◌, ℕ, List, [], length, take, IfOk, IsErrOf, Ok};
ghost use Rattle.std.specs.Io.KnownBytes.{append_known};
ghost use Rattle.rw_io.specs.Counts.{Rose};
ghost use Rattle.rw_io.specs.Pieces.{Answer, taken};
ghost use Rattle.rw_io.specs.States.{SinkState, NoSinkCountFell};

use crate::PutError;

/// Where bytes go, a piece at a time; this project's own.
pub trait Sink {
    /// What was put, where the sink tells it, and how often it failed and stalled.
    ghost state: { Self → SinkState };

    /// How a put may go: on what, with which piece, to which answer, and what it leaves.
    ghost puts: { Self → List ℕ → Answer → Self → Type 0 };

    /// Puts the front of a piece behind the bytes, and answers how many bytes it took. An error takes none.
    fn put(&mut self, piece: &[u8]) -> Result<usize, PutError>
        ensures bound { IfOk result (λ count. count ≤ length piece.now) }
        ensures appended { (state self.new).bytes ≡ append_known (state self.old).bytes (take (taken result) piece.now) }
        ensures stalled { result ≡ Ok 0 → piece.now ≢ [] → Rose (state self.old).stalls (state self.new).stalls }
        ensures failed { IsErrOf result PutError.Failed → Rose (state self.old).faults (state self.new).faults }
        ensures counts { NoSinkCountFell (state self.old) (state self.new) }
        ensures goes { puts self.old piece.now result self.new };
}
