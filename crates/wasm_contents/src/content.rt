// The content of a section, which is read a byte at a time and put into the module.
ghost use Rattle.std.specs.Prelude.{◌≡◌, ◌+◌, ◌<◌, ◌≤◌, ◌^◌, [], length};
ghost use Rattle.wasm_ast.specs.declared.modules.WModule.{WModule};
ghost use Rattle.wasm_reading.specs.ReadModules.{content_at};
ghost use Rattle.wasm_codes.specs.Places.{AlikeAt};
ghost use Rattle.wasm_contents.specs.Contents.{rest_of_content, rest_of_entries, rest_of_start, rest_of_count, rest_of_codes, more_codes, rest_behind_codes, PushesInto, PushesBefore};

use crate::entries::Entries;
use std::alloc::Global;
use wasm_ast::{Code, List, WModule};
use wasm_codes::CodeState;
use wasm_items::{Item, Leb32, Progress, VectorState, append};
use wasm_reading::{DecodeError, DecodeFault};

/// The content of a section in the middle.
pub enum Content {
    Entries(Entries),
    Start(Leb32),
    /// The count of the codes, which has to be that of the functions, and whose first byte stands at this place.
    Count {
        alloc: Global,
        functions: usize,
        place: u64,
        number: Leb32,
    },
    /// A code behind those that were read, and so many behind it.
    Codes {
        alloc: Global,
        before: List<Code>,
        code: CodeState,
        behind: u32,
    },
}

/// Written out, so that a function that drops a content calls this one, and does not repeat the destructors of all
/// states.
impl Drop for Content {
    fn drop(self) {
        match self {
            Content::Entries(_) => (),
            Content::Start(_) => (),
            Content::Count {
                alloc: _,
                functions: _,
                place: _,
                number: _,
            } => (),
            Content::Codes {
                alloc: _,
                before: _,
                code: _,
                behind: _,
            } => (),
        }
    }
}

impl Content {
    /// The content of the section with this id, 1 to 11, of which nothing was read. It begins at the place `at`, and
    /// there are so many functions. Any other id stands for 11.
    pub fn start(alloc: Global, id: u8, functions: usize, at: u64) -> Content
        ensures { (m : WModule) → length m.funcs ≡ functions → AlikeAt at (content_at id m) (rest_of_content m result) }
    {
        match id {
            1 => Content::Entries(Entries::Types(VectorState::start(alloc))),
            2 => Content::Entries(Entries::Imports(VectorState::start(alloc))),
            3 => Content::Entries(Entries::Funcs(VectorState::start(alloc))),
            4 => Content::Entries(Entries::Tables(VectorState::start(alloc))),
            5 => Content::Entries(Entries::Memories(VectorState::start(alloc))),
            6 => Content::Entries(Entries::Globals(VectorState::start(alloc))),
            7 => Content::Entries(Entries::Exports(VectorState::start(alloc))),
            8 => Content::Start(Leb32::unsigned()),
            9 => Content::Entries(Entries::Elements(VectorState::start(alloc))),
            10 => Content::Count {
                alloc,
                functions,
                place: at,
                number: Leb32::unsigned(),
            },
            _ => Content::Entries(Entries::Segments(VectorState::start(alloc))),
        }
    }

    /// Takes the byte at this place; where it is the last one, what was read stands in the module.
    pub fn push(
        self,
        module: &mut WModule,
        byte: u8,
        at: u64,
    ) -> Result<Option<Content>, DecodeError>
        requires { at + 1 < 2 ^ 64 }
        ensures { PushesBefore (rest_of_content «module».old self) byte at «module».new result }
    {
        match self {
            Content::Entries(entries) => push_entries(entries, module, byte, at),
            Content::Start(index) => push_start(index, module, byte, at),
            Content::Count {
                alloc,
                functions,
                place,
                number,
            } => push_count(alloc, functions, place, number, module, byte, at),
            Content::Codes {
                alloc,
                before,
                code,
                behind,
            } => push_codes(alloc, before, code, behind, module, byte, at),
        }
    }
}

fn push_entries(
    entries: Entries,
    module: &mut WModule,
    byte: u8,
    at: u64,
) -> Result<Option<Content>, DecodeError>
    requires { at + 1 < 2 ^ 64 }
    ensures { PushesInto rest_of_content (rest_of_entries «module».old entries) byte at «module».new result }
{
    match entries.push(module, byte, at)? {
        Some(entries) => Ok(Some(Content::Entries(entries))),
        None => Ok(None),
    }
}

fn push_start(
    index: Leb32,
    module: &mut WModule,
    byte: u8,
    at: u64,
) -> Result<Option<Content>, DecodeError>
    requires { at + 1 < 2 ^ 64 }
    ensures { PushesInto rest_of_content (rest_of_start «module».old index) byte at «module».new result }
{
    match index.push(byte, at)? {
        Progress::More(index) => Ok(Some(Content::Start(index))),
        Progress::Done(index) => {
            module.start = Some(index);
            Ok(None)
        }
    }
}

/// A byte of the count of the codes. `CountMismatch` at its first byte where it is not that of the functions.
fn push_count(
    alloc: Global,
    functions: usize,
    place: u64,
    number: Leb32,
    module: &mut WModule,
    byte: u8,
    at: u64,
) -> Result<Option<Content>, DecodeError>
    requires { at + 1 < 2 ^ 64 }
    ensures { PushesInto rest_of_content (rest_of_count «module».old functions place number) byte at «module».new result }
{
    match number.push(byte, at)? {
        Progress::More(number) => Ok(Some(Content::Count {
            alloc,
            functions,
            place,
            number,
        })),
        Progress::Done(count) => {
            if count as usize != functions {
                return Err(DecodeError {
                    at: place,
                    fault: DecodeFault::CountMismatch,
                });
            }
            Ok(codes(alloc, List::new(alloc), count, module))
        }
    }
}

fn push_codes(
    alloc: Global,
    mut before: List<Code>,
    code: CodeState,
    behind: u32,
    module: &mut WModule,
    byte: u8,
    at: u64,
) -> Result<Option<Content>, DecodeError>
    requires { at + 1 < 2 ^ 64 }
    ensures { PushesBefore (rest_of_codes «module».old before code behind) byte at «module».new result }
{
    match code.push(byte, at)? {
        Progress::More(code) => Ok(Some(Content::Codes {
            alloc,
            before,
            code,
            behind,
        })),
        Progress::Done(code) => {
            append(&mut before, code)?;
            Ok(codes(alloc, before, behind, module))
        }
    }
}

/// So many codes behind those that were read, which stand in the module where there are none.
fn codes(alloc: Global, before: List<Code>, count: u32, module: &mut WModule) -> Option<Content>
    ensures { rest_behind_codes «module».new result ≡ more_codes «module».old before count }
{
    if count == 0 {
        module.codes = before;
        return None;
    }
    Some(Content::Codes {
        alloc,
        before,
        code: CodeState::new(alloc),
        behind: count - 1,
    })
}
