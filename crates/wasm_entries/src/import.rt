ghost use Rattle.std.specs.Prelude.{◌≡◌, ◌+◌, ◌<◌, ◌^◌};
ghost use Rattle.wasm_reading.specs.ReadModules.{import_kind_at};
ghost use Rattle.wasm_items.specs.Residuals.{Pushes};
ghost use Rattle.wasm_entries.specs.ImportStates.{rest_of_import_kind, rest_of_import, behind_module};

use std::alloc::Global;
use wasm_ast::{ExportKind, Import, ImportKind, List, ValTy};
use wasm_items::{
    Item, Leb32, MemoryState, NameState, Progress, TableState, external_kind, flag, value_type,
};
use wasm_reading::DecodeError;

/// What is imported, in the middle, behind the byte of its kind (WebAssembly Core Specification 1.0, section 5.5.5).
#[derive(Drop)]
pub enum ImportKindState {
    /// The type index of a function.
    Func(Leb32),
    Table(TableState),
    Memory(MemoryState),
    /// The value type of a global.
    ValueType,
    /// Whether a global of this type is mutable.
    Mutability(ValTy),
}

impl ImportKindState {
    /// An import of this kind, of which nothing was read.
    fn start(kind: ExportKind, alloc: Global) -> ImportKindState
        ensures { rest_of_import_kind result ≡ import_kind_at kind }
    {
        match kind {
            ExportKind::Func => ImportKindState::Func(Leb32::unsigned()),
            ExportKind::Table => ImportKindState::Table(TableState::start(alloc)),
            ExportKind::Memory => ImportKindState::Memory(MemoryState::start(alloc)),
            ExportKind::Global => ImportKindState::ValueType,
        }
    }

    /// Takes the byte at this place.
    fn push(self, byte: u8, at: u64) -> Result<Progress<ImportKindState, ImportKind>, DecodeError>
        requires { at + 1 < 2 ^ 64 }
        ensures { Pushes rest_of_import_kind (rest_of_import_kind self) byte at result }
    {
        match self {
            ImportKindState::Func(number) => match number.push(byte, at)? {
                Progress::More(number) => Ok(Progress::More(ImportKindState::Func(number))),
                Progress::Done(n) => Ok(Progress::Done(ImportKind::Func(n))),
            },
            ImportKindState::Table(table) => match table.push(byte, at)? {
                Progress::More(table) => Ok(Progress::More(ImportKindState::Table(table))),
                Progress::Done(limits) => Ok(Progress::Done(ImportKind::Table(limits))),
            },
            ImportKindState::Memory(memory) => match memory.push(byte, at)? {
                Progress::More(memory) => Ok(Progress::More(ImportKindState::Memory(memory))),
                Progress::Done(limits) => Ok(Progress::Done(ImportKind::Memory(limits))),
            },
            ImportKindState::ValueType => Ok(Progress::More(ImportKindState::Mutability(value_type(
                byte, at,
            )?))),
            ImportKindState::Mutability(ty) => Ok(Progress::Done(ImportKind::Global(
                ty,
                flag(byte, at)?,
            ))),
        }
    }
}

/// An import in the middle (section 5.5.5).
#[derive(Drop)]
pub enum ImportState {
    /// The name of the module.
    Module(Global, NameState),
    /// The name of what is imported, behind that of the module.
    Name(Global, List<u8>, NameState),
    /// The kind, behind both names.
    Kind {
        alloc: Global,
        module: List<u8>,
        name: List<u8>,
    },
    What {
        module: List<u8>,
        name: List<u8>,
        what: ImportKindState,
    },
}

impl Item for ImportState {
    ghost use Rattle.wasm_reading.specs.ReadModules.{import_at};
    ghost use Rattle.wasm_entries.specs.ImportStates.{rest_of_import, wants_import};

    type Value = Import;

    ghost reader = { import_at };

    ghost rest_of = { rest_of_import };

    ghost wants = { wants_import };

    fn start(alloc: Global) -> ImportState {
        ImportState::Module(alloc, NameState::start(alloc))
    }

    fn push(self, byte: u8, at: u64) -> Result<Progress<ImportState, Import>, DecodeError> {
        match self {
            ImportState::Module(alloc, module) => match module.push(byte, at)? {
                Progress::More(module) => Ok(Progress::More(ImportState::Module(alloc, module))),
                Progress::Done(module) => Ok(Progress::More(name_behind(alloc, module))),
            },
            ImportState::Name(alloc, module, name) => match name.push(byte, at)? {
                Progress::More(name) => Ok(Progress::More(ImportState::Name(alloc, module, name))),
                Progress::Done(name) => Ok(Progress::More(ImportState::Kind {
                    alloc,
                    module,
                    name,
                })),
            },
            ImportState::Kind {
                alloc,
                module,
                name,
            } => {
                let kind = external_kind(byte, at)?;
                Ok(Progress::More(ImportState::What {
                    module,
                    name,
                    what: ImportKindState::start(kind, alloc),
                }))
            }
            ImportState::What { module, name, what } => match what.push(byte, at)? {
                Progress::More(what) => Ok(Progress::More(ImportState::What {
                    module,
                    name,
                    what,
                })),
                Progress::Done(what) => Ok(Progress::Done(Import { module, name, what })),
            },
        }
    }
}

/// The name of what is imported, behind that of the module.
fn name_behind(alloc: Global, module: List<u8>) -> ImportState
    ensures { rest_of_import result ≡ behind_module «module» }
{
    ImportState::Name(alloc, module, NameState::start(alloc))
}
