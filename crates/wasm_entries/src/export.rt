use std::alloc::Global;
use wasm_ast::{Export, ExportKind, List};
use wasm_items::{Item, Leb32, NameState, Progress, external_kind};
use wasm_reading::DecodeError;

/// An export in the middle (WebAssembly Core Specification 1.0, section 5.5.10).
#[derive(Drop)]
pub enum ExportState {
    Name(NameState),
    /// The kind, behind this name.
    Kind(List<u8>),
    Index {
        name: List<u8>,
        kind: ExportKind,
        number: Leb32,
    },
}

impl Item for ExportState {
    ghost use Rattle.wasm_reading.specs.ReadModules.{export_at};
    ghost use Rattle.wasm_entries.specs.ExportStates.{rest_of_export, wants_export};

    type Value = Export;

    ghost reader = { export_at };

    ghost rest_of = { rest_of_export };

    ghost wants = { wants_export };

    fn start(alloc: Global) -> ExportState {
        ExportState::Name(NameState::start(alloc))
    }

    fn push(self, byte: u8, at: u64) -> Result<Progress<ExportState, Export>, DecodeError> {
        match self {
            ExportState::Name(name) => match name.push(byte, at)? {
                Progress::More(name) => Ok(Progress::More(ExportState::Name(name))),
                Progress::Done(name) => Ok(Progress::More(ExportState::Kind(name))),
            },
            ExportState::Kind(name) => Ok(Progress::More(ExportState::Index {
                name,
                kind: external_kind(byte, at)?,
                number: Leb32::unsigned(),
            })),
            ExportState::Index { name, kind, number } => match number.push(byte, at)? {
                Progress::More(number) => Ok(Progress::More(ExportState::Index {
                    name,
                    kind,
                    number,
                })),
                Progress::Done(index) => Ok(Progress::Done(Export { name, kind, index })),
            },
        }
    }
}
