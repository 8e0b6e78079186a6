// Files that are loaded.
ghost use Rattle.std.specs.Prelude.{◌≡◌, ◌≤◌, List, [], ◌∷◌, length, IfOk};
ghost use Rattle.rwc_reports.specs.Sources.{FileLoads, max_file_length};
ghost use Rattle.rwc_acts.specs.Stops.{bytes_of};
ghost use Rattle.rwc_acts.specs.Kept.{LoadsTo};

use crate::ending::Stop;
use rw_io::{LoadError, Shelf};
use rwc_lines::lines;
use std::alloc::Global;

/// The greatest length of a file, in bytes.
const MAX_FILE_LENGTH: u32 = 16_777_216;

/// A file's bytes.
pub fn load_file<S: Shelf>(alloc: Global, shelf: &mut S, file: &str) -> Result<Vec<u8>, Stop>
    ensures loads { LoadsTo bytes_of (λ told. FileLoads told file.now) (3 ∷ []) file.now (S.state shelf.old) (S.state shelf.new) result }
    ensures within { IfOk result (λ bytes. length bytes.items ≤ max_file_length) }
{
    match shelf.load(alloc, file, MAX_FILE_LENGTH) {
        Ok(bytes) => Ok(bytes),
        Err(LoadError::Missing) => Err(Stop::refused(3, lines::missing(alloc, file))),
        Err(LoadError::TooLong) => Err(Stop::refused(3, lines::too_long(alloc, file))),
        Err(LoadError::Failed) => Err(Stop::unread(lines::read_fault(alloc, file))),
        Err(LoadError::Memory) => Err(Stop::Memory),
    }
}
