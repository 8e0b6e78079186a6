ghost use Rattle.std.specs.Prelude.{◌≡◌, ◌<◌, ◌≤◌, ◌↔◌, IfOk, IsTrue, MatchResult};
ghost use Rattle.rich_text.specs.Grammars.{a_name, a_number, done};
ghost use Rattle.rich_text.specs.Layout.{open_behind};
ghost use Rattle.rich_text.specs.Places.{the_start};
ghost use Rattle.rw_parser.specs.Reads.{ClosesParse, Ended, FailsAtOpening, FailsAtStart, FailsAtWord, IsHead, Opened, Reads, Starts, Took, TookWord, a_part, the_fields};
ghost use Rattle.rich_text.specs.Numbers.{Index};
ghost use Rattle.rw_numbers.specs.NumberWords.{modulus_of, range_of};
ghost use Rattle.rw_tokens.specs.Streams.{token_of};

use crate::errors::{ReadError, bad_form};
use rw_numbers::{NumberWord, Range, number};
use rw_tokens::{FirstFault, Position, Spelling, Symbol, TextFault, TextToken, Tokens};
use rw_types::{List, Name};
use std::alloc::Global;
use std::marker::Model;

/// A text of which forms are read from the left. Contracts see the text and what is left of it; this project's own.
#[derive(Drop)]
pub struct Parser<'a> {
    alloc: Global,
    text: &'a [u8],
    tokens: Tokens<'a>,
}

impl<'a> Model for Parser<'a> {
    ghost use Rattle.rich_text.specs.Lexing.{lexed};
    ghost use Rattle.rw_tokens.specs.Streams.{ahead};
    ghost use Rattle.rw_parser.specs.Reads.{IsEnd, Parse};

    ghost Value = { Parse };

    ghost view = { λ p. record { text = p.text.now; left = p.tokens } };

    ghost invariant = { λ p. IsEnd (lexed p.text.now) (ahead p.tokens) };
}

impl<'a> Parser<'a> {
    /// A text, of which nothing was read.
    pub fn new(alloc: Global, text: &'a [u8]) -> Parser<'a>
        ensures { result ≡ record { text = text.now; left = record { bytes = text.now; at = the_start; depth = 0 } } }
    {
        Parser {
            alloc,
            text,
            tokens: Tokens::new(text),
        }
    }

    /// The allocator of what is read.
    pub fn alloc(&self) -> Global {
        self.alloc
    }

    /// Takes the next token off. An error is what ends the tokens.
    fn next(&mut self) -> Result<TextToken<'a>, FirstFault>
        ensures took { MatchResult result (Took self.old self.new) (Ended self.old) }
        ensures depth { IfOk result (λ t. self.new.left.depth ≡ open_behind (token_of t.symbol) self.old.left.depth) }
        ensures within { self.new.left.depth ≤ 200 }
    {
        self.tokens.next()
    }

    /// Takes a `(` off.
    pub fn open(&mut self) -> Result<(), ReadError>
        ensures { MatchResult result (λ _. Opened self.old self.new) (FailsAtOpening self.old) }
    {
        let TextToken { symbol, at } = self.next()?;
        match symbol {
            Symbol::Opening => Ok(()),
            _ => Err(bad_form(at)),
        }
    }

    /// Takes a `)` off.
    pub fn close(&mut self) -> Result<(), ReadError>
        requires { 0 < self.old.left.depth }
        ensures { Reads (the_fields done) 1 self.old self.new result }
    {
        let TextToken { symbol, at } = self.next()?;
        match symbol {
            Symbol::Closing => Ok(()),
            _ => Err(bad_form(at)),
        }
    }

    /// Takes the `)` off that comes next. False where another token comes, or none; then the tokens ahead stay.
    pub fn closes(&mut self) -> bool
        ensures { ClosesParse self.old self.new result }
    {
        self.tokens.closes()
    }

    /// Takes the first token of a form off: a word, or a `(` and the word behind it.
    pub fn start(&mut self) -> Result<FormStart<'a>, ReadError>
        ensures { MatchResult result (Starts self.old self.new) (FailsAtStart self.old) }
    {
        let TextToken { symbol, at } = self.next()?;
        match symbol {
            Symbol::Word(word) => Ok(FormStart::Word(word, at)),
            Symbol::Opening => self.head(),
            _ => Err(bad_form(at)),
        }
    }

    /// Takes the word off that stands behind a `(`.
    fn head(&mut self) -> Result<FormStart<'a>, ReadError>
        ensures { MatchResult result (IsHead self.old self.new) (FailsAtWord self.old) }
    {
        let (word, at) = self.word()?;
        Ok(FormStart::Head(word, at))
    }

    /// A number of a range.
    pub fn number(&mut self, range: Range) -> Result<u64, ReadError>
        ensures reads { Reads (a_part (a_number (range_of range))) 0 self.old self.new result }
        ensures below { IfOk result (λ n. n < modulus_of range) }
    {
        let (word, at) = self.word()?;
        match number(range, word.as_slice()) {
            NumberWord::Within(value) => Ok(value),
            NumberWord::OutOfRange => Err(ReadError::Fault(FirstFault {
                fault: TextFault::NumberOut,
                at,
            })),
            NumberWord::NoNumber => Err(bad_form(at)),
        }
    }

    /// Takes a word off.
    pub fn word(&mut self) -> Result<(Spelling<'a>, Position), ReadError>
        ensures { MatchResult result (λ p. TookWord self.old self.new p.0 p.1) (FailsAtWord self.old) }
    {
        let TextToken { symbol, at } = self.next()?;
        match symbol {
            Symbol::Word(word) => Ok((word, at)),
            _ => Err(bad_form(at)),
        }
    }

    /// A name in quotes.
    pub fn name(&mut self) -> Result<Name, ReadError>
        ensures { Reads (a_part a_name) 0 self.old self.new result }
    {
        let TextToken { symbol, at } = self.next()?;
        let Symbol::Quoted(quoted) = symbol else {
            return Err(bad_form(at));
        };
        let bytes = List::from_slice(self.alloc, quoted.as_slice())?;
        let Some(name) = Name::new(bytes) else {
            unreachable!();
        };
        Ok(name)
    }

    /// A number without a sign.
    pub fn index(&mut self) -> Result<u32, ReadError>
        ensures { Reads (a_part (a_number Index)) 0 self.old self.new result }
    {
        let value = self.number(Range::Index)?;
        Ok(value as u32)
    }
}

/// How a form begins: with a word alone, or with a `(` and a word; this project's own.
#[derive(Debug, Drop)]
pub enum FormStart<'a> {
    Word(Spelling<'a>, Position),
    Head(Spelling<'a>, Position),
}

/// Whether a word is this one.
pub fn is_word(word: &Spelling<'_>, text: &[u8]) -> bool
    ensures { IsTrue result ↔ (word.now ≡ text.now) }
{
    word.as_slice() == text
}
