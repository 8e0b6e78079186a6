// A shelf and a sink in memory. They tell everything, and fail where they are told to.
ghost use Rattle.std.specs.Prelude.{◌≡◌, ◌≢◌, ◌≤◌, List, [], ◌++◌, length, take, min, IsTrue, Contains, ◌↔◌, IfOk, IfErr, OnOk, OnErr, IsErrOf, IfSome, IsNone, Ok, None, Some, is_some, true, false};
ghost use Rattle.std.specs.Io.KnownBytes.{append_known};
ghost use Rattle.std.specs.Option.{option_copied};
ghost use Rattle.rw_io.specs.Counts.{Rose, raised};
ghost use Rattle.rw_io.specs.Files.{NamedFile, content_of};
ghost use Rattle.rw_io.specs.Pieces.{taken};
ghost use Rattle.rw_io.specs.States.{ShelfState, SinkState, NoShelfCountFell, NoSinkCountFell, IsLoaded, begun, appended};
ghost use Rattle.rw_io.specs.CountedCalls.{CountsLoad, CountsCreate, stalls_after_put};
ghost use Rattle.rw_io.specs.MemForms.{Plan, named_files, next_plan};

use crate::counts::{count, count_stall};
use crate::{LoadError, PutError, Shelf, Sink};
use std::alloc::Global;

/// A shelf in memory, which tells everything; this project's own.
#[derive(Drop)]
pub struct MemShelf {
    alloc: Global,
    files: Vec<(String, Vec<u8>)>,
    fails: Vec<u64>,
    most: usize,
    calls: u64,
    created: Option<(String, Vec<u8>)>,
    load_faults: u64,
    put_faults: u64,
    stalls: u64,
}

/// A sink in memory, which tells everything; this project's own.
#[derive(Drop)]
pub struct MemSink {
    bytes: Vec<u8>,
    fails: Vec<u64>,
    most: usize,
    calls: u64,
    faults: u64,
    stalls: u64,
}

// Whether the call with this number is to fail; the next call has the next number.
fn is_to_fail(fails: &[u64], calls: &mut u64) -> bool
    ensures listed { IsTrue result ↔ Contains fails.now calls.old }
    ensures next { calls.new ≡ raised calls.old }
{
    let call = *calls;
    *calls = calls.saturating_add(1);
    fails.contains(&call)
}

// The content of the first file of that name.
fn find<'a>(files: &'a [(String, Vec<u8>)], name: &str) -> Option<&'a [u8]>
    ensures { option_copied result ≡ content_of (named_files files.now) name.now }
{
    for file in files {
        if file.0.as_str() == name {
            return Some(file.1.as_slice());
        }
    }
    None
}

// Puts at most `most` bytes of a piece behind the bytes, and counts a stall.
fn take_front(
    bytes: &mut Vec<u8>,
    piece: &[u8],
    most: usize,
    stalls: &mut u64,
) -> Result<usize, PutError>
    ensures appended { bytes.new.items ≡ bytes.old.items ++ take (taken result) piece.now }
    ensures full { IfOk result (λ taken. taken ≡ min (length piece.now) most) }
    ensures only_memory { IfErr result (λ e. e ≡ PutError.Memory) }
    ensures stalls { stalls.new ≡ stalls_after_put result piece.now stalls.old }
    ensures later { stalls.old ≤ stalls.new }
{
    let taken = piece.len().min(most);
    match bytes.extend_from_slice(&piece[..taken]) {
        Ok(()) => {
            count_stall(taken, piece, stalls);
            Ok(taken)
        }
        Err(_) => Err(PutError::Memory),
    }
}

impl MemShelf {
    ghost use Rattle.rw_io.specs.MemStates.{shelf_state, shelf_plan};

    /// A shelf with these files, the first of a name counting. The calls whose numbers are in `fails`, counted
    /// from 0 over all calls of the shelf, fail; an append takes at most `most` bytes of its piece.
    pub fn new(
        alloc: Global,
        files: Vec<(String, Vec<u8>)>,
        fails: Vec<u64>,
        most: usize,
    ) -> MemShelf
        ensures files { (shelf_state result).holding ≡ record { files = Some (named_files files.items); created = Some ([], []); has_created = false } }
        ensures load_faults { (shelf_state result).load_faults ≡ 0 }
        ensures put_faults { (shelf_state result).put_faults ≡ 0 }
        ensures stalls { (shelf_state result).stalls ≡ 0 }
        ensures plan { shelf_plan result ≡ record { fails = fails.items; most = most; calls = 0 } }
    {
        MemShelf {
            alloc,
            files,
            fails,
            most,
            calls: 0,
            created: None,
            load_faults: 0,
            put_faults: 0,
            stalls: 0,
        }
    }

    /// The name under which something was created last.
    pub fn created_name(&self) -> Option<&str>
        ensures some { is_some result ≡ (shelf_state self.now).holding.has_created }
        ensures value { IfSome result (λ name. IfSome (shelf_state self.now).holding.created (λ file. name.now ≡ file.0)) }
    {
        match &self.created {
            Some(file) => Some(file.0.as_str()),
            None => None,
        }
    }

    /// The bytes that were created last.
    pub fn created(&self) -> Option<&[u8]>
        ensures some { is_some result ≡ (shelf_state self.now).holding.has_created }
        ensures value { IfSome result (λ bytes. IfSome (shelf_state self.now).holding.created (λ file. bytes.now ≡ file.1)) }
    {
        match &self.created {
            Some(file) => Some(file.1.as_slice()),
            None => None,
        }
    }

    /// How many loads failed.
    pub fn load_faults(&self) -> u64
        ensures { result ≡ (shelf_state self.now).load_faults }
    {
        self.load_faults
    }

    /// How many creates and appends failed.
    pub fn put_faults(&self) -> u64
        ensures { result ≡ (shelf_state self.now).put_faults }
    {
        self.put_faults
    }

    /// How many appends stalled.
    pub fn stalls(&self) -> u64
        ensures { result ≡ (shelf_state self.now).stalls }
    {
        self.stalls
    }
}

impl Shelf for MemShelf {
    ghost use Rattle.rw_io.specs.MemStates.{shelf_state, shelf_plan, mem_appends};

    ghost state = { shelf_state };

    ghost appends = { mem_appends };

    fn load(&mut self, alloc: Global, name: &str, limit: u32) -> Result<Vec<u8>, LoadError>
        ensures told { (files : List NamedFile) → (shelf_state self.old).holding.files ≡ Some files → IsLoaded files name.now limit result }
        ensures within { IfOk result (λ bytes. length bytes.items ≤ limit) }
        ensures failed { IsErrOf result LoadError.Failed → Rose (shelf_state self.old).load_faults (shelf_state self.new).load_faults }
        ensures same { (shelf_state self.new).holding ≡ (shelf_state self.old).holding }
        ensures counts { NoShelfCountFell (shelf_state self.old) (shelf_state self.new) }
        ensures listed { IsErrOf result LoadError.Failed ↔ Contains (shelf_plan self.old).fails (shelf_plan self.old).calls }
        ensures next { shelf_plan self.new ≡ next_plan (shelf_plan self.old) }
        ensures counted { CountsLoad result (shelf_state self.old) (shelf_state self.new) }
    {
        if is_to_fail(&self.fails, &mut self.calls) {
            count(&mut self.load_faults);
            return Err(LoadError::Failed);
        }
        let Some(bytes) = find(&self.files, name) else {
            return Err(LoadError::Missing);
        };
        if bytes.len() > limit as usize {
            return Err(LoadError::TooLong);
        }
        match bytes.to_vec(alloc) {
            Ok(copy) => Ok(copy),
            Err(_) => Err(LoadError::Memory),
        }
    }

    fn create(&mut self, name: &str) -> Result<(), PutError>
        ensures created { OnOk result ((shelf_state self.new).holding ≡ begun name.now (shelf_state self.old).holding) }
        ensures same { OnErr result ((shelf_state self.new).holding ≡ (shelf_state self.old).holding) }
        ensures failed { IsErrOf result PutError.Failed → Rose (shelf_state self.old).put_faults (shelf_state self.new).put_faults }
        ensures counts { NoShelfCountFell (shelf_state self.old) (shelf_state self.new) }
        ensures listed { IsErrOf result PutError.Failed ↔ Contains (shelf_plan self.old).fails (shelf_plan self.old).calls }
        ensures next { shelf_plan self.new ≡ next_plan (shelf_plan self.old) }
        ensures counted { CountsCreate result (shelf_state self.old) (shelf_state self.new) }
    {
        if is_to_fail(&self.fails, &mut self.calls) {
            count(&mut self.put_faults);
            return Err(PutError::Failed);
        }
        match String::from_str(self.alloc, name) {
            Ok(name) => {
                self.created = Some((name, Vec::new(self.alloc)));
                Ok(())
            }
            Err(_) => Err(PutError::Memory),
        }
    }

    fn append(&mut self, piece: &[u8]) -> Result<usize, PutError>
        ensures bound { IfOk result (λ count. count ≤ length piece.now) }
        ensures appended { (shelf_state self.new).holding ≡ appended (take (taken result) piece.now) (shelf_state self.old).holding }
        ensures nothing { (shelf_state self.old).holding.has_created ≡ false → taken result ≡ 0 }
        ensures no_stall { (shelf_state self.old).holding.has_created ≡ false → (shelf_state self.new).stalls ≡ (shelf_state self.old).stalls }
        ensures stalled { result ≡ Ok 0 → (shelf_state self.old).holding.has_created ≡ true → piece.now ≢ []
            → Rose (shelf_state self.old).stalls (shelf_state self.new).stalls }
        ensures failed { IsErrOf result PutError.Failed → Rose (shelf_state self.old).put_faults (shelf_state self.new).put_faults }
        ensures counts { NoShelfCountFell (shelf_state self.old) (shelf_state self.new) }
        ensures listed { IsErrOf result PutError.Failed ↔ Contains (shelf_plan self.old).fails (shelf_plan self.old).calls }
        ensures goes { mem_appends self.old piece.now result self.new }
        ensures full { (shelf_state self.old).holding.has_created ≡ true → IfOk result (λ count. count ≡ min (length piece.now) (shelf_plan self.old).most) }
    {
        if is_to_fail(&self.fails, &mut self.calls) {
            count(&mut self.put_faults);
            return Err(PutError::Failed);
        }
        let Some((name, mut bytes)) = self.created.take() else {
            return Ok(0);
        };
        let result = take_front(&mut bytes, piece, self.most, &mut self.stalls);
        self.created = Some((name, bytes));
        result
    }
}

impl MemSink {
    ghost use Rattle.rw_io.specs.MemStates.{sink_state, sink_plan};

    /// An empty sink. The puts whose numbers are in `fails`, counted from 0, fail; a put takes at most `most`
    /// bytes of its piece.
    pub fn new(alloc: Global, fails: Vec<u64>, most: usize) -> MemSink
        ensures state { sink_state result ≡ record { bytes = Some []; faults = 0; stalls = 0 } }
        ensures plan { sink_plan result ≡ record { fails = fails.items; most = most; calls = 0 } }
    {
        MemSink {
            bytes: Vec::new(alloc),
            fails,
            most,
            calls: 0,
            faults: 0,
            stalls: 0,
        }
    }

    /// The bytes that were put.
    pub fn bytes(&self) -> &[u8]
        ensures { (sink_state self.now).bytes ≡ Some result.now }
    {
        &self.bytes
    }

    /// How many puts failed.
    pub fn faults(&self) -> u64
        ensures { result ≡ (sink_state self.now).faults }
    {
        self.faults
    }

    /// How many puts stalled.
    pub fn stalls(&self) -> u64
        ensures { result ≡ (sink_state self.now).stalls }
    {
        self.stalls
    }
}

impl Sink for MemSink {
    ghost use Rattle.rw_io.specs.MemStates.{sink_state, sink_plan, mem_puts};

    ghost state = { sink_state };

    ghost puts = { mem_puts };

    fn put(&mut self, piece: &[u8]) -> Result<usize, PutError>
        ensures bound { IfOk result (λ count. count ≤ length piece.now) }
        ensures appended { (sink_state self.new).bytes ≡ append_known (sink_state self.old).bytes (take (taken result) piece.now) }
        ensures stalled { result ≡ Ok 0 → piece.now ≢ [] → Rose (sink_state self.old).stalls (sink_state self.new).stalls }
        ensures failed { IsErrOf result PutError.Failed → Rose (sink_state self.old).faults (sink_state self.new).faults }
        ensures counts { NoSinkCountFell (sink_state self.old) (sink_state self.new) }
        ensures listed { IsErrOf result PutError.Failed ↔ Contains (sink_plan self.old).fails (sink_plan self.old).calls }
        ensures goes { mem_puts self.old piece.now result self.new }
        ensures full { IfOk result (λ count. count ≡ min (length piece.now) (sink_plan self.old).most) }
    {
        if is_to_fail(&self.fails, &mut self.calls) {
            count(&mut self.faults);
            return Err(PutError::Failed);
        }
        take_front(&mut self.bytes, piece, self.most, &mut self.stalls)
    }
}
