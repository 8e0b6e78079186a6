ghost use Rattle.std.specs.Prelude.{MatchOption, MatchResult, codes, ◌<◌, ◌≡◌, None};
ghost use Rattle.rich_text.specs.FirstVersion.{first_version};
ghost use Rattle.rich_text.specs.Forms.{function_type_form, heap_form, pretype_form, type_form};
ghost use Rattle.rich_text.specs.Grammars.{a_form, done, index, one};
ghost use Rattle.rich_text.specs.Reading.{look_up};
ghost use Rattle.rw_parser.specs.Reads.{Fails, Gave, a_part, the_fields};
ghost use Rattle.rw_type_forms.specs.Heads.{Began, StartsPretype, heap_word, pretype_word, type_word};

use rw_parser::{FormStart, Parser, ReadError, bad_form, is_word};
use rw_tokens::Spelling;
use rw_types::{Pre, Qual};

/// The words with which types begin; this project's own.
#[derive(Clone, Copy)]
pub enum TypeHead {
    Of(Qual),
    Var,
    Rec,
}

/// The words with which pretypes in parentheses begin; this project's own.
#[derive(Clone, Copy)]
pub enum PretypeHead {
    Ptr,
    Own,
    Cap,
    Tuple,
    Ref,
    Hidden,
    Code,
}

/// The words with which heap types begin; this project's own.
#[derive(Clone, Copy)]
pub enum HeapHead {
    Struct,
    Variant,
    Array,
    Exist,
}

/// How a pretype begins: a word is the whole of it; this project's own.
#[derive(Drop)]
pub enum PretypeStart {
    Whole(Pre),
    Head(PretypeHead),
}

fn type_head(word: &Spelling<'_>) -> Option<TypeHead>
    ensures { MatchOption result (look_up word.now (first_version type_form).heads ≡ None) (λ h. word.now ≡ type_word h) }
{
    if is_word(word, b"unr") {
        Some(TypeHead::Of(Qual::Unr))
    } else if is_word(word, b"lin") {
        Some(TypeHead::Of(Qual::Lin))
    } else if is_word(word, b"var") {
        Some(TypeHead::Var)
    } else if is_word(word, b"rec") {
        Some(TypeHead::Rec)
    } else {
        None
    }
}

fn pretype_of(word: &Spelling<'_>) -> Option<Pre>
    ensures { result ≡ look_up word.now (first_version pretype_form).words }
{
    if is_word(word, b"unit") {
        Some(Pre::Unit)
    } else if is_word(word, b"i32") {
        Some(Pre::I32)
    } else if is_word(word, b"i64") {
        Some(Pre::I64)
    } else {
        None
    }
}

fn pretype_head(word: &Spelling<'_>) -> Option<PretypeHead>
    ensures { MatchOption result (look_up word.now (first_version pretype_form).heads ≡ None) (λ h. word.now ≡ pretype_word h) }
{
    if is_word(word, b"ptr") {
        Some(PretypeHead::Ptr)
    } else if is_word(word, b"own") {
        Some(PretypeHead::Own)
    } else if is_word(word, b"cap") {
        Some(PretypeHead::Cap)
    } else if is_word(word, b"tuple") {
        Some(PretypeHead::Tuple)
    } else if is_word(word, b"ref") {
        Some(PretypeHead::Ref)
    } else if is_word(word, b"some") {
        Some(PretypeHead::Hidden)
    } else if is_word(word, b"code") {
        Some(PretypeHead::Code)
    } else {
        None
    }
}

fn heap_head(word: &Spelling<'_>) -> Option<HeapHead>
    ensures { MatchOption result (look_up word.now (first_version heap_form).heads ≡ None) (λ h. word.now ≡ heap_word h) }
{
    if is_word(word, b"struct") {
        Some(HeapHead::Struct)
    } else if is_word(word, b"variant") {
        Some(HeapHead::Variant)
    } else if is_word(word, b"array") {
        Some(HeapHead::Array)
    } else if is_word(word, b"exist") {
        Some(HeapHead::Exist)
    } else {
        None
    }
}

/// Takes a `(` and a type's word off.
pub fn start_type(parser: &mut Parser<'_>) -> Result<TypeHead, ReadError>
    ensures { MatchResult result (λ h. Began parser.old parser.new (type_word h)) (Fails (a_part (a_form type_form)) parser.old) }
{
    match parser.start()? {
        FormStart::Word(_word, at) => Err(bad_form(at)),
        FormStart::Head(word, at) => match type_head(&word) {
            Some(head) => Ok(head),
            None => Err(bad_form(at)),
        },
    }
}

/// Takes a pretype that is a word off, or a `(` and a pretype's word.
pub fn start_pretype(parser: &mut Parser<'_>) -> Result<PretypeStart, ReadError>
    ensures { MatchResult result (StartsPretype parser.old parser.new) (Fails (a_part (a_form pretype_form)) parser.old) }
{
    match parser.start()? {
        FormStart::Word(word, at) => match pretype_of(&word) {
            Some(pretype) => Ok(PretypeStart::Whole(pretype)),
            None => Err(bad_form(at)),
        },
        FormStart::Head(word, at) => match pretype_head(&word) {
            Some(head) => Ok(PretypeStart::Head(head)),
            None => Err(bad_form(at)),
        },
    }
}

/// Takes a `(` and a heap type's word off.
pub fn start_heap(parser: &mut Parser<'_>) -> Result<HeapHead, ReadError>
    ensures { MatchResult result (λ h. Began parser.old parser.new (heap_word h)) (Fails (a_part (a_form heap_form)) parser.old) }
{
    match parser.start()? {
        FormStart::Word(_word, at) => Err(bad_form(at)),
        FormStart::Head(word, at) => match heap_head(&word) {
            Some(head) => Ok(head),
            None => Err(bad_form(at)),
        },
    }
}

/// Takes a `(` and `fun` off.
pub fn start_function_type(parser: &mut Parser<'_>) -> Result<(), ReadError>
    ensures { MatchResult result (λ _. Began parser.old parser.new (codes "fun")) (Fails (a_part (a_form function_type_form)) parser.old) }
{
    match parser.start()? {
        FormStart::Word(_word, at) => Err(bad_form(at)),
        FormStart::Head(word, at) => {
            if is_word(&word, b"fun") {
                Ok(())
            } else {
                Err(bad_form(at))
            }
        }
    }
}

/// The number of a list that holds no more, and its `)`.
pub fn only_index(parser: &mut Parser<'_>) -> Result<u32, ReadError>
    requires { 0 < parser.old.left.depth }
    ensures { MatchResult result (λ n. Gave (the_fields (one index done)) 1 parser.old parser.new (n, tt)) (Fails (the_fields (one index done)) parser.old) }
{
    let value = parser.index()?;
    parser.close()?;
    Ok(value)
}
