ghost use Rattle.std.specs.Prelude.{MatchOption, MatchResult, ◌<◌, ◌≡◌};
ghost use Rattle.rw_field_forms.specs.Fields.{FailsAtField, IsNoField, StartsField, field_word, place_in_order};

use rw_parser::{FormStart, Parser, ReadError, bad_form, is_word};
use rw_tokens::{Position, Spelling};

/// The kinds of fields; this project's own.
#[derive(Clone, Copy)]
pub enum FieldKind {
    Import,
    Function,
    Global,
    Export,
}

/// How what stands in a module goes on: with a field of a kind, whose word stands there, or with the `)`; this project's own.
#[derive(Clone, Copy)]
pub enum FieldStart {
    Field(FieldKind, Position),
    End,
}

impl FieldKind {
    /// The place of the kind in the order of a module.
    pub fn place(self) -> u8
        ensures { result ≡ place_in_order self }
    {
        match self {
            FieldKind::Import => 0,
            FieldKind::Function => 1,
            FieldKind::Global => 2,
            FieldKind::Export => 3,
        }
    }
}

fn field_kind(word: &Spelling<'_>) -> Option<FieldKind>
    ensures { MatchOption result (IsNoField word.now) (λ k. word.now ≡ field_word k) }
{
    if is_word(word, b"import") {
        Some(FieldKind::Import)
    } else if is_word(word, b"func") {
        Some(FieldKind::Function)
    } else if is_word(word, b"global") {
        Some(FieldKind::Global)
    } else if is_word(word, b"export") {
        Some(FieldKind::Export)
    } else {
        None
    }
}

/// Takes a `(` and the word of a field off, or the `)` of the module.
pub fn start_field(parser: &mut Parser<'_>) -> Result<FieldStart, ReadError>
    requires { 0 < parser.old.left.depth }
    ensures { MatchResult result (StartsField parser.old parser.new) (FailsAtField parser.old) }
{
    if parser.closes() {
        return Ok(FieldStart::End);
    }
    match parser.start()? {
        FormStart::Word(_word, at) => Err(bad_form(at)),
        FormStart::Head(word, at) => match field_kind(&word) {
            Some(kind) => Ok(FieldStart::Field(kind, at)),
            None => Err(bad_form(at)),
        },
    }
}
