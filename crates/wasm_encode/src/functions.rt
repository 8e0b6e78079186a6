ghost use Rattle.std.specs.Prelude.{◌≡◌, ◌++◌, ℕ, ◌<◌, ◌≤◌, ◌^◌, OnOk, IsErrOf, length};
ghost use Rattle.wasm_grammar.specs.CanonicalTypes.{vector_bytes};
ghost use Rattle.wasm_grammar.specs.CanonicalModules.{code_bytes};

use crate::error::EncodeError;
use crate::instructions::push_expression;
use crate::section::put_length;
use crate::vector::push_vector;
use wasm_ast::Code;
use wasm_leb::push_u32;

/// The id of the code section.
pub const CODE: u8 = 10;

/// Appends the vector of the functions' code. `TooLong(10)` only where it has 2^32 bytes or more.
pub fn push_codes(out: &mut Vec<u8>, codes: &[Code]) -> Result<(), EncodeError>
    requires { length codes.now < 2 ^ 32 }
    ensures ok { OnOk result (out.new.items ≡ out.old.items ++ vector_bytes code_bytes codes.now) }
    ensures cause { (id : ℕ) → IsErrOf result (EncodeError.TooLong id) → (id ≡ 10) × (2 ^ 32 ≤ length (vector_bytes code_bytes codes.now)) }
{
    push_u32(out, codes.len() as u32)?;
    for code in codes {
        push_code(out, code)?;
    }
    Ok(())
}

/// Appends a function's code: its length, its locals and its body (WebAssembly Core Specification 1.0,
/// 5.5.13 Code Section). `TooLong(10)` only where it has 2^32 bytes or more.
fn push_code(out: &mut Vec<u8>, code: &Code) -> Result<(), EncodeError>
    ensures ok { OnOk result (out.new.items ≡ out.old.items ++ code_bytes code.now) }
    ensures cause { (id : ℕ) → IsErrOf result (EncodeError.TooLong id) → (id ≡ 10) × (2 ^ 32 ≤ length (code_bytes code.now)) }
{
    let start = out.len();
    push_vector(out, code.locals.as_slice())?;
    push_expression(out, code.body.as_slice())?;
    put_length(out, start, CODE)
}
