use wasm_frames::Frames;
use wasm_memory::LinearMemory;

/// The calls of a run, the function that is called when the first one is over, if one is, and the memory, the table and the
/// globals.
#[derive(Drop)]
pub struct State<'a> {
    pub frames: Frames<'a>,
    pub next_call: Option<u32>,
    pub memory: LinearMemory,
    pub table: Vec<Option<u32>>,
    pub globals: Vec<u64>,
}
