ghost use Rattle.std.specs.Prelude.{IfErr, IfOk, MatchResult, ◌≡◌, ◌≢◌};
ghost use Rattle.rich_text.specs.Texts.{Spells, reading};
ghost use Rattle.rich_text.specs.Places.{the_start};
ghost use Rattle.rw_read.specs.Reading.{FailsWhole, IsTheOnly, ReadsWhole, SpellsNone, Tells};
ghost use Rattle.rw_read.specs.declared.errors.TextFault.TheVariants.{Memory};

use crate::errors::{TextError, error_at, error_of};
use crate::modules::{read_end, read_module};
use rw_parser::{Parser, ReadError};
use rw_tokens::{FirstFault, TextFault, first_ill_formed};
use rw_types::Module;
use std::alloc::Global;

/// The module that a Rich text spells. An error is its first fault, with the place; `Memory` where memory is wanting, and
/// where that place does not fit 32 bits; this project's own.
pub fn read(alloc: Global, bytes: &[u8]) -> Result<Module, TextError>
    ensures spelled { IfOk result (Spells bytes.now) }
    ensures only { IfOk result (IsTheOnly bytes.now) }
    ensures reads { IfOk result (λ m. reading bytes.now ≡ Ok m) }
    ensures fault { IfErr result (Tells bytes.now) }
    ensures none { IfErr result (λ e. e.fault ≢ Memory → SpellsNone bytes.now) }
{
    if let Some(at) = first_ill_formed(bytes) {
        return Err(error_at(FirstFault {
            fault: TextFault::BadUtf8,
            at,
        }));
    }
    match read_whole(&mut Parser::new(alloc, bytes)) {
        Ok(module) => Ok(module),
        Err(error) => Err(error_of(error)),
    }
}

/// The module of a text, behind which nothing stands.
fn read_whole(parser: &mut Parser<'_>) -> Result<Module, ReadError>
    requires { parser.old ≡ record { text = parser.old.text; left = record { bytes = parser.old.text; at = the_start; depth = 0 } } }
    ensures { MatchResult result (ReadsWhole parser.old.text) (FailsWhole parser.old.text) }
{
    let module = read_module(parser)?;
    read_end(parser)?;
    Ok(module)
}
