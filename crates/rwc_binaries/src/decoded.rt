// A binary is decoded, and the lines of its counts are made.
ghost use Rattle.std.specs.Prelude.{◌≡◌, ◌≢◌, ◌≤◌, List, [], ◌∷◌, length, map, string_bytes, IfOk, Ok};
ghost use Rattle.wasm_grammar.specs.Nesting.{ModuleNestsAtMost, nesting_limit};
ghost use Rattle.wasm_items.specs.Residuals.{no_memory};
ghost use Rattle.rwc_reports.specs.Binaries.{BinaryDecodes, malformed_refusal};
ghost use Rattle.rwc_reports.specs.Dumps.{module_lines};
ghost use Rattle.rwc_reports.specs.Reports.{LinesLead};
ghost use Rattle.rwc_reports.specs.Sources.{max_file_length};
ghost use Rattle.rwc_reports.specs.Steps.{Onward};
ghost use Rattle.rwc_acts.specs.Kept.{LoadsTo};
ghost use Rattle.rwc_acts.specs.Stops.{IfStop, IsStep, texts_of};

use crate::counts::dump;
use rw_io::Shelf;
use rwc_acts::{Stop, load_file};
use rwc_lines::{lines, names};
use std::alloc::{AllocError, Global};
use wasm_ast::WModule;
use wasm_codec::is_canonical;
use wasm_decode::{Decoded, decode};
use wasm_reading::{DecodeError, DecodeFault};

/// The lines of the counts of the module that a file spells.
pub fn lines_of_file<S: Shelf>(
    alloc: Global,
    file: &str,
    shelf: &mut S,
) -> Result<Vec<String>, Stop>
    ensures { LoadsTo texts_of (λ told. LinesLead told file.now) (3 ∷ 9 ∷ []) file.now (S.state shelf.old) (S.state shelf.new) result }
{
    match load_file(alloc, shelf, file) {
        Ok(bytes) => lines_of(alloc, file, &bytes),
        Err(stop) => Err(stop),
    }
}

/// The module that the bytes of a file spell. A `Stop` is the refusal by their first fault, or want of memory; this project's own.
pub fn decode_binary(alloc: Global, file: &str, bytes: &[u8]) -> Result<Decoded, Stop>
    ensures { IsStep (λ m. m) (BinaryDecodes file.now bytes.now) result }
{
    match decode(alloc, bytes) {
        Ok(decoded) => Ok(decoded),
        Err(error) => Err(refuse(alloc, file, error)),
    }
}

// The lines of the module that bytes spell.
fn lines_of(alloc: Global, file: &str, bytes: &[u8]) -> Result<Vec<String>, Stop>
    requires { length bytes.now ≤ max_file_length }
    ensures { IsStep texts_of (Onward (BinaryDecodes file.now bytes.now) (λ m r. r ≡ Ok (module_lines bytes.now m))) result }
{
    match decode_binary(alloc, file, bytes) {
        Ok(decoded) => match lines_of_module(alloc, bytes, decoded.module()) {
            Ok(lines) => Ok(lines),
            Err(_) => Err(Stop::Memory),
        },
        Err(stop) => Err(stop),
    }
}

// The lines of a module that was read from bytes.
fn lines_of_module(alloc: Global, bytes: &[u8], m: &WModule) -> Result<Vec<String>, AllocError>
    requires short { length bytes.now ≤ max_file_length }
    requires nests { ModuleNestsAtMost nesting_limit m.now }
    ensures { IfOk result (λ lines. map string_bytes lines.items ≡ module_lines bytes.now m.now) }
{
    let canonical = is_canonical(alloc, bytes, m)?;
    dump(alloc, m, canonical)
}

// The refusal of a binary that has this fault.
fn refuse(alloc: Global, file: &str, error: DecodeError) -> Stop
    ensures { IfStop result (λ status line. (error ≢ no_memory) × (status ≡ 9) × (line ≡ (malformed_refusal file.now error).line)) (λ _. ⊥) (λ _. ⊥) }
{
    if error.fault == DecodeFault::Memory {
        return Stop::Memory;
    }
    let fault = names::of_fault(error.fault);
    Stop::refused(9, lines::malformed(alloc, file, error.at, fault))
}
