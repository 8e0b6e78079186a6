ghost use Rattle.std.specs.Prelude.{MatchResult, codes};
ghost use Rattle.rich_text.specs.Forms.{else_form, then_form};
ghost use Rattle.rich_text.specs.Grammars.{a_form};
ghost use Rattle.rw_parser.specs.Reads.{Fails, a_part};
ghost use Rattle.rw_type_forms.specs.Heads.{Began};

use rw_parser::{FormStart, Parser, ReadError, bad_form, is_word};

/// Takes a `(` and `then` off.
pub fn start_then(parser: &mut Parser<'_>) -> Result<(), ReadError>
    ensures { MatchResult result (λ _. Began parser.old parser.new (codes "then")) (Fails (a_part (a_form then_form)) parser.old) }
{
    match parser.start()? {
        FormStart::Word(_word, at) => Err(bad_form(at)),
        FormStart::Head(word, at) => {
            if is_word(&word, b"then") {
                Ok(())
            } else {
                Err(bad_form(at))
            }
        }
    }
}

/// Takes a `(` and `else` off.
pub fn start_else(parser: &mut Parser<'_>) -> Result<(), ReadError>
    ensures { MatchResult result (λ _. Began parser.old parser.new (codes "else")) (Fails (a_part (a_form else_form)) parser.old) }
{
    match parser.start()? {
        FormStart::Word(_word, at) => Err(bad_form(at)),
        FormStart::Head(word, at) => {
            if is_word(&word, b"else") {
                Ok(())
            } else {
                Err(bad_form(at))
            }
        }
    }
}
