ghost use Rattle.std.specs.Prelude.{◌≡◌, [], ◌∷◌, ◌++◌, OnOk, IfErr};
ghost use Rattle.wasm_items.specs.Residuals.{no_memory};

use std::alloc::AllocError;
use wasm_ast::List;
use wasm_reading::{DecodeError, DecodeFault};

/// Adds an entry at the end (this project's own). `Memory` at place 0 where memory is wanting, or where the list is
/// full.
pub fn append<T: Drop>(list: &mut List<T>, entry: T) -> Result<(), DecodeError>
    ensures ok { OnOk result (list.new ≡ list.old ++ entry ∷ []) }
    ensures err { IfErr result (λ e. e ≡ no_memory) }
{
    match list.push(entry) {
        Ok(()) => Ok(()),
        Err(AllocError) => Err(DecodeError {
            at: 0,
            fault: DecodeFault::Memory,
        }),
    }
}
