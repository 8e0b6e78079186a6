ghost use Rattle.std.specs.Prelude.{◌≡◌, ◌≤◌, ℕ, length, take, false};
ghost use Rattle.std.specs.List.{prefix_len};
ghost use Rattle.rich_text.specs.Lexing.{InBlank, InComment};
ghost use Rattle.rich_text.specs.Places.{the_start};
ghost use Rattle.rich_text.specs.Tokens.{is_blank, is_name_byte, is_word_byte};
ghost use Rattle.rw_tokens.specs.Found.{Skips, TakesByte, TakesQuote, along, begins_blank, begins_comment, first_of};
ghost use Rattle.rw_tokens.specs.Streams.{place_of};

use crate::symbols::{Position, Spelling};
use std::marker::Model;

/// What is left of a text. Contracts see its bytes and the place of the first.
#[derive(Debug, Drop)]
pub struct Cursor<'a> {
    rest: &'a [u8],
    line: u64,
    column: u64,
}

impl<'a> Model for Cursor<'a> {
    ghost use Rattle.std.specs.Prelude.{◌+◌, ◌<◌, ◌^◌, length};
    ghost use Rattle.rw_tokens.specs.Streams.{Remains};

    ghost Value = { Remains };

    ghost view = { λ c. record { bytes = c.rest.now; at = record { line = c.line; column = c.column } } };

    ghost invariant = { λ c. (c.line + length c.rest.now < 2 ^ 64) × (c.column + length c.rest.now < 2 ^ 64) };
}

impl<'a> Cursor<'a> {
    pub fn new(text: &'a [u8]) -> Cursor<'a>
        ensures { result ≡ record { bytes = text.now; at = the_start } }
    {
        Cursor {
            rest: text,
            line: 1,
            column: 1,
        }
    }

    /// The place of the first byte that is left.
    pub fn position(&self) -> Position
        ensures { place_of result ≡ self.now.at }
    {
        Position {
            line: self.line,
            column: self.column,
        }
    }

    /// The same again.
    pub fn again(&self) -> Cursor<'a>
        ensures { result ≡ self.now }
    {
        Cursor {
            rest: self.rest,
            line: self.line,
            column: self.column,
        }
    }

    /// The bytes that are left.
    pub fn as_slice(&self) -> &'a [u8]
        ensures { result.now ≡ self.now.bytes }
    {
        self.rest
    }

    /// The first byte that is left.
    pub fn first(&self) -> Option<u8>
        ensures { result ≡ first_of self.now.bytes }
    {
        match self.rest {
            [byte, ..] => Some(*byte),
            [] => None,
        }
    }

    /// Takes the first byte off.
    pub fn take(&mut self) -> Option<u8>
        ensures { TakesByte self.old self.new result }
    {
        let [byte, rest @ ..] = self.rest else {
            return None;
        };
        self.rest = rest;
        if *byte == b'\n' {
            self.line += 1;
            self.column = 1;
        } else {
            self.column += 1;
        }
        Some(*byte)
    }

    /// Takes so many bytes off, among which no line ends.
    fn pass(&mut self, count: usize) -> &'a [u8]
        requires { count ≤ length self.old.bytes }
        ensures front { result.now ≡ take count self.old.bytes }
        ensures rest { self.new ≡ along count self.old }
    {
        let (front, rest) = self.rest.split_at(count);
        self.rest = rest;
        self.column += count as u64;
        front
    }

    /// Takes bytes of a word off, as many as there are.
    pub fn word(&mut self) -> Spelling<'a>
        ensures front { result ≡ take (prefix_len is_word_byte self.old.bytes) self.old.bytes }
        ensures rest { self.new ≡ along (prefix_len is_word_byte self.old.bytes) self.old }
    {
        let end = word_bytes(self.rest);
        Spelling::new(self.pass(end))
    }

    /// Takes bytes of a name off, as many as there are.
    pub fn name(&mut self) -> Spelling<'a>
        ensures front { result ≡ take (prefix_len is_name_byte self.old.bytes) self.old.bytes }
        ensures rest { self.new ≡ along (prefix_len is_name_byte self.old.bytes) self.old }
    {
        let end = name_bytes(self.rest);
        Spelling::new(self.pass(end))
    }

    /// Takes the quote off that ends a name. False where none comes; then a byte may be taken off.
    pub fn end_quote(&mut self) -> bool
        ensures { TakesQuote self.old self.new result }
    {
        let Some(byte) = self.take() else {
            return false;
        };
        byte == b'"'
    }

    /// Passes blanks and comments by.
    pub fn skip(&mut self)
        ensures same { Skips InBlank self.old InBlank self.new }
        ensures no_blank { begins_blank self.new.bytes ≡ false }
        ensures no_comment { begins_comment self.new.bytes ≡ false }
    {
        loop {
            if self.begins_blank() {
                self.take();
            } else if self.begins_comment() {
                self.take();
                self.take();
                self.end_line();
            } else {
                return;
            }
        }
    }

    /// Passes the rest of a line by.
    fn end_line(&mut self)
        ensures same { Skips InComment self.old InBlank self.new }
        ensures shorter { length self.new.bytes ≤ length self.old.bytes }
    {
        while let Some(byte) = self.take() {
            if byte == b'\n' {
                return;
            }
        }
    }

    fn begins_blank(&self) -> bool
        ensures { result ≡ begins_blank self.now.bytes }
    {
        match self.rest {
            [byte, ..] => is_blank(*byte),
            [] => false,
        }
    }

    fn begins_comment(&self) -> bool
        ensures { result ≡ begins_comment self.now.bytes }
    {
        match self.rest {
            [first, second, ..] => *first == b';' && *second == b';',
            _ => false,
        }
    }
}

fn is_blank(byte: u8) -> bool
    ensures { result ≡ is_blank byte }
{
    matches!(byte, b' ' | b'\t' | b'\n' | b'\r')
}

/// How many bytes at the front may stand in a word.
fn word_bytes(text: &[u8]) -> usize
    ensures count { result ≡ prefix_len is_word_byte text.now }
    ensures within { result ≤ length text.now }
{
    text.iter()
        .take_while(|byte| byte.is_ascii_alphanumeric() || matches!(**byte, b'_' | b'.' | b'-'))
        .count()
}

/// How many bytes at the front may stand in a name.
fn name_bytes(text: &[u8]) -> usize
    ensures count { result ≡ prefix_len is_name_byte text.now }
    ensures within { result ≤ length text.now }
{
    text.iter()
        .take_while(|byte| byte.is_ascii_lowercase() || byte.is_ascii_digit() || **byte == b'_')
        .count()
}
