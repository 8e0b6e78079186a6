// The contents of sections that are vectors of entries.
ghost use Rattle.std.specs.Prelude.{◌+◌, ◌<◌, ◌^◌};
ghost use Rattle.wasm_items.specs.Vectors.{rest_of_vector};
ghost use Rattle.wasm_contents.specs.Contents.{rest_of_entries, PutsInto, PushesInto};

use wasm_ast::{List, WModule};
use wasm_entries::{
    ElementState, ExportState, FuncTypeState, GlobalState, ImportState, SegmentState,
};
use wasm_items::{Item, Leb32, MemoryState, Progress, TableState, VectorState};
use wasm_reading::DecodeError;

/// The entries of one section in the middle.
#[derive(Drop)]
pub enum Entries {
    Types(VectorState<FuncTypeState>),
    Imports(VectorState<ImportState>),
    Funcs(VectorState<Leb32>),
    Tables(VectorState<TableState>),
    Memories(VectorState<MemoryState>),
    Globals(VectorState<GlobalState>),
    Exports(VectorState<ExportState>),
    Elements(VectorState<ElementState>),
    Segments(VectorState<SegmentState>),
}

impl Entries {
    /// Takes the byte at this place; where it is the last one, the entries stand in the module.
    pub fn push(
        self,
        module: &mut WModule,
        byte: u8,
        at: u64,
    ) -> Result<Option<Entries>, DecodeError>
        requires { at + 1 < 2 ^ 64 }
        ensures { PushesInto rest_of_entries (rest_of_entries «module».old self) byte at «module».new result }
    {
        match self {
            Entries::Types(state) => Ok(put_into(state, &mut module.types, byte, at)?.map(
                Entries::Types,
            )),
            Entries::Imports(state) => Ok(put_into(state, &mut module.imports, byte, at)?.map(
                Entries::Imports,
            )),
            Entries::Funcs(state) => Ok(put_into(state, &mut module.funcs, byte, at)?.map(
                Entries::Funcs,
            )),
            Entries::Tables(state) => Ok(put_into(state, &mut module.tables, byte, at)?.map(
                Entries::Tables,
            )),
            Entries::Memories(state) => Ok(put_into(state, &mut module.memories, byte, at)?.map(
                Entries::Memories,
            )),
            Entries::Globals(state) => Ok(put_into(state, &mut module.globals, byte, at)?.map(
                Entries::Globals,
            )),
            Entries::Exports(state) => Ok(put_into(state, &mut module.exports, byte, at)?.map(
                Entries::Exports,
            )),
            Entries::Elements(state) => Ok(put_into(state, &mut module.elements, byte, at)?.map(
                Entries::Elements,
            )),
            Entries::Segments(state) => Ok(put_into(state, &mut module.segments, byte, at)?.map(
                Entries::Segments,
            )),
        }
    }
}

/// Takes a byte of a vector; where it is the last one, its entries stand in the field, and `None` is answered.
fn put_into<T: Item>(
    state: VectorState<T>,
    field: &mut List<T::Value>,
    byte: u8,
    at: u64,
) -> Result<Option<VectorState<T>>, DecodeError>
    requires { at + 1 < 2 ^ 64 }
    ensures { PutsInto (rest_of_vector T.reader T.rest_of) state byte at field.old field.new result }
{
    match state.push(byte, at)? {
        Progress::More(state) => Ok(Some(state)),
        Progress::Done(entries) => {
            *field = entries;
            Ok(None)
        }
    }
}
