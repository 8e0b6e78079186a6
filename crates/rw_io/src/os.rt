// The shelf over the system's files and a sink over any writer: the trusted edge. They tell no contents.
ghost use Rattle.std.specs.Prelude.{◌≡◌, ◌≤◌, List, length, IfOk, IfErr, OnOk, OnErr, IsErrOf, Some, None, false};
ghost use Rattle.rw_io.specs.Counts.{Rose};
ghost use Rattle.rw_io.specs.CountedCalls.{CountsLoad, CountsCreate, faults_after, stalls_after_put};
ghost use Rattle.rw_io.specs.Files.{NamedFile};
ghost use Rattle.rw_io.specs.States.{NoShelfCountFell, IsLoaded, begun};

use crate::counts::{count, count_stall};
use crate::{LoadError, PutError, Shelf, Sink};
use std::alloc::Global;
use std::io::{ErrorKind, Read, Write};
use std::rt::Files;
use std::{fs, io};

/// The system's files. It tells only whether something was created, and counts failures and stalls in 64 bits
/// each; this project's own.
#[derive(Drop)]
pub struct OsShelf<R: Files + Drop> {
    rt: R,
    created: Option<R::File>,
    load_faults: u64,
    put_faults: u64,
    stalls: u64,
}

/// A writer of the system, as standard output. It tells no bytes, and counts failures and stalls in 64 bits
/// each; this project's own.
#[derive(Drop)]
pub struct OsSink<W: Write + Drop> {
    writer: W,
    faults: u64,
    stalls: u64,
}

impl<R: Files + Drop> OsShelf<R> {
    ghost use Rattle.rw_io.specs.OsStates.{os_shelf_state};

    /// A shelf over these files, with nothing created.
    pub fn new(rt: R) -> OsShelf<R>
        ensures { os_shelf_state result ≡ record {
          holding = record { files = None; created = None; has_created = false };
          load_faults = 0;
          put_faults = 0;
          stalls = 0;
        } }
    {
        OsShelf {
            rt,
            created: None,
            load_faults: 0,
            put_faults: 0,
            stalls: 0,
        }
    }
}

// At most one byte more than the limit is read.
fn read_front<R: Files>(rt: &R, alloc: Global, name: &str, limit: u32) -> io::Result<Vec<u8>> {
    let file = fs::open(rt, name)?;
    let mut bytes = Vec::new(alloc);
    file.take(u64::from(limit) + 1).read_to_end(&mut bytes)?;
    Ok(bytes)
}

// What a call answers that wrote a piece, with its failure or stall counted.
fn answer_of(
    written: io::Result<usize>,
    piece: &[u8],
    faults: &mut u64,
    stalls: &mut u64,
) -> Result<usize, PutError>
    requires { IfOk written (λ count. count ≤ length piece.now) }
    ensures bound { IfOk result (λ count. count ≤ length piece.now) }
    ensures error { IfErr result (λ error. error ≡ PutError.Failed) }
    ensures faults { faults.new ≡ faults_after result faults.old }
    ensures stalls { stalls.new ≡ stalls_after_put result piece.now stalls.old }
    ensures later { (faults.old ≤ faults.new) × (stalls.old ≤ stalls.new) }
{
    match written {
        Ok(taken) => {
            count_stall(taken, piece, stalls);
            Ok(taken)
        }
        Err(_) => {
            count(faults);
            Err(PutError::Failed)
        }
    }
}

impl<R: Files + Drop> Shelf for OsShelf<R> {
    ghost use Rattle.rw_io.specs.OsStates.{os_shelf_state, os_appends};

    ghost state = { os_shelf_state };

    ghost appends = { os_appends };

    fn load(&mut self, alloc: Global, name: &str, limit: u32) -> Result<Vec<u8>, LoadError>
        ensures told { (files : List NamedFile) → (os_shelf_state self.old).holding.files ≡ Some files → IsLoaded files name.now limit result }
        ensures within { IfOk result (λ bytes. length bytes.items ≤ limit) }
        ensures failed { IsErrOf result LoadError.Failed → Rose (os_shelf_state self.old).load_faults (os_shelf_state self.new).load_faults }
        ensures same { (os_shelf_state self.new).holding ≡ (os_shelf_state self.old).holding }
        ensures counts { NoShelfCountFell (os_shelf_state self.old) (os_shelf_state self.new) }
        ensures counted { CountsLoad result (os_shelf_state self.old) (os_shelf_state self.new) }
    {
        match read_front(&self.rt, alloc, name, limit) {
            Ok(bytes) if bytes.len() > limit as usize => Err(LoadError::TooLong),
            Ok(bytes) => Ok(bytes),
            Err(e) => match e.kind() {
                ErrorKind::NotFound => Err(LoadError::Missing),
                ErrorKind::OutOfMemory => Err(LoadError::Memory),
                _ => {
                    count(&mut self.load_faults);
                    Err(LoadError::Failed)
                }
            },
        }
    }

    fn create(&mut self, name: &str) -> Result<(), PutError>
        ensures created { OnOk result ((os_shelf_state self.new).holding ≡ begun name.now (os_shelf_state self.old).holding) }
        ensures same { OnErr result ((os_shelf_state self.new).holding ≡ (os_shelf_state self.old).holding) }
        ensures failed { IsErrOf result PutError.Failed → Rose (os_shelf_state self.old).put_faults (os_shelf_state self.new).put_faults }
        ensures counts { NoShelfCountFell (os_shelf_state self.old) (os_shelf_state self.new) }
        ensures counted { CountsCreate result (os_shelf_state self.old) (os_shelf_state self.new) }
    {
        match fs::create(&self.rt, name) {
            Ok(file) => {
                self.created = Some(file);
                Ok(())
            }
            Err(e) => {
                if e.kind() == ErrorKind::OutOfMemory {
                    return Err(PutError::Memory);
                }
                count(&mut self.put_faults);
                Err(PutError::Failed)
            }
        }
    }

    fn append(&mut self, piece: &[u8]) -> Result<usize, PutError> {
        let Some(mut file) = self.created.take() else {
            return Ok(0);
        };
        let written = file.write(piece);
        self.created = Some(file);
        answer_of(written, piece, &mut self.put_faults, &mut self.stalls)
    }
}

impl<W: Write + Drop> OsSink<W> {
    ghost use Rattle.rw_io.specs.OsStates.{os_sink_state};

    /// A sink over this writer.
    pub fn new(writer: W) -> OsSink<W>
        ensures { os_sink_state result ≡ record { bytes = None; faults = 0; stalls = 0 } }
    {
        OsSink {
            writer,
            faults: 0,
            stalls: 0,
        }
    }
}

impl<W: Write + Drop> Sink for OsSink<W> {
    ghost use Rattle.rw_io.specs.OsStates.{os_sink_state, os_puts};

    ghost state = { os_sink_state };

    ghost puts = { os_puts };

    fn put(&mut self, piece: &[u8]) -> Result<usize, PutError> {
        let written = self.writer.write(piece);
        answer_of(written, piece, &mut self.faults, &mut self.stalls)
    }
}
