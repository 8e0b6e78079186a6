ghost use Rattle.std.specs.Prelude.{MatchResult, codes, ◌<◌, ◌≡◌};
ghost use Rattle.rich_text.specs.Forms.{module_form, version_form};
ghost use Rattle.rich_text.specs.Grammars.{a_form};
ghost use Rattle.rw_parser.specs.Reads.{Reads, a_part, behind_head};
ghost use Rattle.rw_read.specs.Reading.{EndsHere, FailsBehind, is_end};

use rw_field_forms::read_fields;
use rw_parser::{FormStart, Parser, ReadError, bad_form, is_word};
use rw_tokens::{FirstFault, TextFault};
use rw_types::Module;

/// The module of a text.
pub fn read_module(parser: &mut Parser<'_>) -> Result<Module, ReadError>
    ensures { Reads (a_part (a_form module_form)) 0 parser.old parser.new result }
{
    match parser.start()? {
        FormStart::Word(_word, at) => Err(bad_form(at)),
        FormStart::Head(word, at) => {
            if is_word(&word, b"module") {
                read_version_and_fields(parser)
            } else {
                Err(bad_form(at))
            }
        }
    }
}

/// What stands behind `(module`.
fn read_version_and_fields(parser: &mut Parser<'_>) -> Result<Module, ReadError>
    requires { 0 < parser.old.left.depth }
    ensures { Reads (behind_head module_form (codes "module")) 1 parser.old parser.new result }
{
    read_version(parser)?;
    let module = read_fields(parser)?;
    Ok(module)
}

/// The version of a text.
fn read_version(parser: &mut Parser<'_>) -> Result<(), ReadError>
    ensures { Reads (a_part (a_form version_form)) 0 parser.old parser.new result }
{
    let (word, at) = parser.word()?;
    if is_word(&word, b"1") {
        Ok(())
    } else {
        Err(bad_form(at))
    }
}

/// Looks whether the text ends here, but for blanks and comments.
pub fn read_end(parser: &mut Parser<'_>) -> Result<(), ReadError>
    ensures { MatchResult result (λ _. EndsHere parser.old) (FailsBehind parser.old) }
{
    let error = match parser.word() {
        Ok((_word, at)) => return Err(bad_form(at)),
        Err(error) => error,
    };
    if is_end(&error) { Ok(()) } else { Err(error) }
}

fn is_end(error: &ReadError) -> bool
    ensures { result ≡ is_end error.now }
{
    match error {
        ReadError::Fault(FirstFault { fault, .. }) => *fault == TextFault::Unended,
        ReadError::Memory => false,
    }
}
