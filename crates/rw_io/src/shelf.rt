// A shelf of files: some are loaded whole, and one is created and appended to.
ghost use Rattle.std.specs.Prelude.{◌≡◌, ◌≢◌, ◌≤◌, ℕ, List, [], false, true, length, take, IfOk, OnOk, OnErr, IsErrOf, Ok, Some};
ghost use Rattle.rw_io.specs.Counts.{Rose};
ghost use Rattle.rw_io.specs.Files.{NamedFile};
ghost use Rattle.rw_io.specs.Pieces.{Answer, taken};
ghost use Rattle.rw_io.specs.States.{ShelfState, NoShelfCountFell, IsLoaded, begun, appended};

use crate::{LoadError, PutError};
use std::alloc::Global;

/// Files that are loaded, and one that is created at a time; this project's own.
pub trait Shelf {
    /// What stands on the shelf, as far as it tells, and how often it failed and stalled.
    ghost state: { Self → ShelfState };

    /// Loads a file whole: its bytes, at most `limit` of them.
    fn load(&mut self, alloc: Global, name: &str, limit: u32) -> Result<Vec<u8>, LoadError>
        ensures told { (files : List NamedFile) → (state self.old).holding.files ≡ Some files → IsLoaded files name.now limit result }
        ensures within { IfOk result (λ bytes. length bytes.items ≤ limit) }
        ensures failed { IsErrOf result LoadError.Failed → Rose (state self.old).load_faults (state self.new).load_faults }
        ensures same { (state self.new).holding ≡ (state self.old).holding }
        ensures counts { NoShelfCountFell (state self.old) (state self.new) };

    /// Begins a file anew, empty. An error changes nothing but counts.
    fn create(&mut self, name: &str) -> Result<(), PutError>
        ensures created { OnOk result ((state self.new).holding ≡ begun name.now (state self.old).holding) }
        ensures same { OnErr result ((state self.new).holding ≡ (state self.old).holding) }
        ensures failed { IsErrOf result PutError.Failed → Rose (state self.old).put_faults (state self.new).put_faults }
        ensures counts { NoShelfCountFell (state self.old) (state self.new) };

    /// How an append may go: on what, with which piece, to which answer, and what it leaves.
    ghost appends: { Self → List ℕ → Answer → Self → Type 0 };

    /// Puts the front of a piece behind what was created, and answers how many bytes it took.
    /// An error takes none, and where nothing was created none is taken either, which is no stall.
    fn append(&mut self, piece: &[u8]) -> Result<usize, PutError>
        ensures bound { IfOk result (λ count. count ≤ length piece.now) }
        ensures appended { (state self.new).holding ≡ appended (take (taken result) piece.now) (state self.old).holding }
        ensures nothing { (state self.old).holding.has_created ≡ false → taken result ≡ 0 }
        ensures no_stall { (state self.old).holding.has_created ≡ false → (state self.new).stalls ≡ (state self.old).stalls }
        ensures stalled { result ≡ Ok 0 → (state self.old).holding.has_created ≡ true → piece.now ≢ []
            → Rose (state self.old).stalls (state self.new).stalls }
        ensures failed { IsErrOf result PutError.Failed → Rose (state self.old).put_faults (state self.new).put_faults }
        ensures counts { NoShelfCountFell (state self.old) (state self.new) }
        ensures goes { appends self.old piece.now result self.new };
}
