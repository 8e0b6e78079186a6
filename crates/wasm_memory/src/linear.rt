ghost use Rattle.std.specs.Prelude.{◌≡◌, ◌+◌, ◌*◌, ◌^◌, ◌<◌, ◌≤◌, IfOk, OnOk, OnErr, length};
ghost use Rattle.memory_words.specs.Memories.{zeros, put, read, write};
ghost use Rattle.wasm_num.specs.Widths.{IsWithin};
ghost use Rattle.wasm_ast.specs.Operations.{log_bytes};
ghost use Rattle.wasm_execution.specs.Types.{width_of};
ghost use Rattle.wasm_execution.specs.Memories.{loaded, pages_of};
ghost use Rattle.wasm_memory.specs.Growth.{Grows};

use crate::bytes::{number_at, put_bytes, put_number, with_sign};
use std::alloc::{AllocError, Global};
use std::marker::Model;
use wasm_ast::{Access, ValTy};

/// How many bytes a page has.
const PAGE: usize = 65_536;

/// A byte of what is loaded or stored lies past the memory's end.
#[derive(Clone, Copy, Debug, PartialEq, Eq)]
pub struct OutOfBounds;

/// A memory; clauses see the list of its bytes (section 4.2.8).
#[derive(Drop)]
pub struct LinearMemory {
    bytes: Vec<u8>,
}

impl Model for LinearMemory {
    ghost use Rattle.std.specs.Prelude.{List, ℕ};

    ghost Value = { List ℕ };

    ghost view = { λ m. m.bytes.items };
}

impl LinearMemory {
    /// A memory of so many pages, all zero.
    pub fn new(alloc: Global, pages: u32) -> Result<LinearMemory, AllocError>
        ensures { IfOk result (λ m. m ≡ zeros (65536 * pages)) }
    {
        let bytes = vec![in alloc; 0u8; pages as usize * PAGE]?;
        Ok(LinearMemory { bytes })
    }

    /// The bytes of the memory.
    pub fn as_slice(&self) -> &[u8]
        ensures { result.now ≡ self.now }
    {
        self.bytes.as_slice()
    }

    /// How many pages the memory has (section 4.4.4.3).
    pub fn pages(&self) -> u64
        ensures { result ≡ pages_of self.now }
    {
        (self.bytes.len() / PAGE) as u64
    }

    /// The number that a load gives from an address on: its bytes, the least one first, and its sign carried on where the
    /// access has one. `OutOfBounds` exactly where its last byte lies past the end (section 4.4.4.1). It takes no memory.
    pub fn load(&self, ty: ValTy, access: Access, address: u64) -> Result<u64, OutOfBounds>
        requires narrow { access.log_width ≤ log_bytes ty }
        requires reached { address < 2 ^ 33 }
        ensures value { IfOk result (λ n. n ≡ loaded ty access (read (2 ^ access.log_width) self.now address)) }
        ensures within { OnOk result (address + 2 ^ access.log_width ≤ length self.now) }
        ensures out { OnErr result (length self.now < address + 2 ^ access.log_width) }
        ensures small { IfOk result (λ n. IsWithin (width_of ty) n) }
    {
        let number = number_at(&self.bytes, access.log_width, address)?;
        Ok(with_sign(ty, access, number))
    }

    /// Puts two to the power of `log_width` low bytes of a number from an address on, the least one first. `OutOfBounds`
    /// exactly where the last byte would lie past the end, and then nothing is written (section 4.4.4.2). It takes no
    /// memory.
    pub fn store(&mut self, log_width: u32, address: u64, number: u64) -> Result<(), OutOfBounds>
        requires narrow { log_width ≤ 3 }
        requires reached { address < 2 ^ 33 }
        ensures value { OnOk result (self.new ≡ write (2 ^ log_width) self.old address number) }
        ensures within { OnOk result (address + 2 ^ log_width ≤ length self.old) }
        ensures out { OnErr result (length self.old < address + 2 ^ log_width) }
        ensures unchanged { OnErr result (self.new ≡ self.old) }
        ensures length { length self.new ≡ length self.old }
    {
        put_number(&mut self.bytes, log_width, address, number)
    }

    /// Puts the bytes of a data segment from an address on (section 4.5.4).
    pub fn put(&mut self, address: usize, bytes: &[u8])
        requires { address + length bytes.now ≤ length self.old }
        ensures value { self.new ≡ put self.old address bytes.now }
        ensures length { length self.new ≡ length self.old }
    {
        put_bytes(&mut self.bytes, address, bytes);
    }

    /// Puts so many pages, all zero, behind the last one, and gives how many there were before; nothing where there would be
    /// more than the most (section 4.4.4.4). `AllocError` leaves the memory as it was.
    pub fn grow(&mut self, pages: u32, most: u32) -> Result<Option<u64>, AllocError>
        requires { most ≤ 65536 }
        ensures grown { IfOk result (λ before. Grows most pages self.old before self.new) }
        ensures unchanged { OnErr result (self.new ≡ self.old) }
    {
        let before = self.pages();
        let after = before + u64::from(pages);
        if after > u64::from(most) {
            return Ok(None);
        }
        let len = self.bytes.len() + pages as usize * PAGE;
        self.bytes.resize(len, 0)?;
        Ok(Some(before))
    }
}
