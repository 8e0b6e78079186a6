ghost use Rattle.std.specs.Prelude.{◌≡◌, ◌≤◌, length};
ghost use Rattle.rich_text.specs.Places.{the_start};
ghost use Rattle.rw_tokens.specs.Found.{IsNoMark, first_of, fits_name};
ghost use Rattle.rw_tokens.specs.Streams.{Closes, Gives, place_of, token_of};
ghost use Rattle.rich_text.specs.Tokens.{Closing};

use crate::cursor::Cursor;
use crate::symbols::{FirstFault, Position, Symbol, TextFault, TextToken};
use std::marker::Model;

/// How many lists may be open.
const NESTING_LIMIT: u32 = 200;

/// The most bytes of a name.
const MAX_NAME: usize = 64;

/// The tokens that are left of a text. Contracts see the bytes that are left, the place of the first, and how many
/// lists are open.
#[derive(Debug, Drop)]
pub struct Tokens<'a> {
    cursor: Cursor<'a>,
    depth: u32,
}

impl<'a> Model for Tokens<'a> {
    ghost use Rattle.std.specs.Prelude.{◌≤◌};
    ghost use Rattle.rw_tokens.specs.Streams.{Left};

    ghost Value = { Left };

    ghost view = { λ t. record { bytes = t.cursor.bytes; at = t.cursor.at; depth = t.depth } };

    ghost invariant = { λ t. t.depth ≤ 200 };
}

impl<'a> Tokens<'a> {
    /// The tokens of a text.
    pub fn new(text: &'a [u8]) -> Tokens<'a>
        ensures { result ≡ record { bytes = text.now; at = the_start; depth = 0 } }
    {
        Tokens {
            cursor: Cursor::new(text),
            depth: 0,
        }
    }

    /// Takes the next token off. An error is what ends the tokens: `Unended` at the text's end, `BadToken` where no
    /// token begins, `TooDeep` at a `(` where 200 lists are open. After one the tokens ahead are as before.
    pub fn next(&mut self) -> Result<TextToken<'a>, FirstFault>
        ensures gives { Gives self.old self.new result }
        ensures within { self.new.depth ≤ 200 }
    {
        self.cursor.skip();
        let at = self.cursor.position();
        let Some(first) = self.cursor.first() else {
            return Err(fault_at(TextFault::Unended, at));
        };
        match first {
            b'(' => self.open(at),
            b')' => Ok(self.close(at)),
            b'"' => self.quoted(at),
            _ => self.word(at),
        }
    }

    /// Takes the `)` off that comes next. False where another token comes, or none; then the tokens ahead stay.
    pub fn closes(&mut self) -> bool
        ensures closes { Closes self.old self.new result }
        ensures within { self.new.depth ≤ 200 }
    {
        self.cursor.skip();
        let at = self.cursor.position();
        let Some(first) = self.cursor.first() else {
            return false;
        };
        if first != b')' {
            return false;
        }
        self.close(at);
        true
    }

    /// Takes the `(` off that comes next.
    fn open(&mut self, at: Position) -> Result<TextToken<'a>, FirstFault>
        requires next { first_of self.old.bytes ≡ Some 40 }
        requires place { place_of at ≡ self.old.at }
        ensures gives { Gives self.old self.new result }
        ensures within { self.new.depth ≤ 200 }
    {
        if self.depth >= NESTING_LIMIT {
            return Err(fault_at(TextFault::TooDeep, at));
        }
        self.depth += 1;
        self.cursor.take();
        Ok(TextToken {
            symbol: Symbol::Opening,
            at,
        })
    }

    /// Takes the `)` off that comes next.
    fn close(&mut self, at: Position) -> TextToken<'a>
        requires next { first_of self.old.bytes ≡ Some 41 }
        requires place { place_of at ≡ self.old.at }
        ensures gives { Gives self.old self.new (Ok result) }
        ensures symbol { token_of result.symbol ≡ Closing }
        ensures within { self.new.depth ≤ 200 }
    {
        self.depth = self.depth.saturating_sub(1);
        self.cursor.take();
        TextToken {
            symbol: Symbol::Closing,
            at,
        }
    }

    /// Takes the name off whose opening quote comes next.
    fn quoted(&mut self, at: Position) -> Result<TextToken<'a>, FirstFault>
        requires next { first_of self.old.bytes ≡ Some 34 }
        requires place { place_of at ≡ self.old.at }
        ensures gives { Gives self.old self.new result }
        ensures within { self.new.depth ≤ 200 }
    {
        let mut cursor = self.cursor.again();
        cursor.take();
        let name = cursor.name();
        if !cursor.end_quote() {
            return Err(fault_at(TextFault::BadToken, at));
        }
        if !fits(name.as_slice()) {
            return Err(fault_at(TextFault::BadToken, at));
        }
        self.cursor = cursor;
        Ok(TextToken {
            symbol: Symbol::Quoted(name),
            at,
        })
    }

    /// Takes the word off that comes next, where one comes.
    fn word(&mut self, at: Position) -> Result<TextToken<'a>, FirstFault>
        requires next { IsNoMark self.old.bytes }
        requires place { place_of at ≡ self.old.at }
        ensures gives { Gives self.old self.new result }
        ensures within { self.new.depth ≤ 200 }
    {
        let word = self.cursor.word();
        if word.as_slice().is_empty() {
            return Err(fault_at(TextFault::BadToken, at));
        }
        Ok(TextToken {
            symbol: Symbol::Word(word),
            at,
        })
    }
}

fn fault_at(fault: TextFault, at: Position) -> FirstFault
    ensures { result ≡ record { fault = fault; at = at } }
{
    FirstFault { fault, at }
}

/// Whether a name can have so many bytes.
fn fits(name: &[u8]) -> bool
    ensures { result ≡ fits_name (length name.now) }
{
    !name.is_empty() && name.len() <= MAX_NAME
}
