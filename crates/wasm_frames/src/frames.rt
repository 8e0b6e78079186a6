use wasm_ast::WInstr;
use wasm_call_steps::Callers;
use wasm_levels::Levels;
use wasm_values::{Locals, Values};

/// The call that runs, with its function, its first argument (0 where it has none) and what is left of its list, and the rows of
/// all calls.
#[derive(Drop)]
pub struct Frames<'a> {
    pub function: u32,
    pub argument: u64,
    pub code: &'a [WInstr],
    pub values: Values,
    pub locals: Locals,
    pub levels: Levels<'a>,
    pub callers: Callers<'a>,
}
