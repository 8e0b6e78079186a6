ghost use Rattle.std.specs.Prelude.{◌≡◌};

use std::marker::Model;

/// A line and a column of a text, both counted from 1, the column in bytes; this project's own.
#[derive(Clone, Copy, PartialEq, Eq, Debug)]
pub struct Position {
    pub line: u64,
    pub column: u64,
}

/// Why a text spells no module; this project's own.
#[derive(Clone, Copy, PartialEq, Eq, Debug)]
pub enum TextFault {
    /// The text is not UTF-8 here.
    BadUtf8,
    /// No token begins here.
    BadToken,
    /// No form goes on with this token.
    BadForm,
    /// A number is out of its range.
    NumberOut,
    /// More than 200 lists would be open here.
    TooDeep,
    /// The text ends within its module.
    Unended,
}

/// A fault, and the place of its first byte; this project's own.
#[derive(Clone, Copy, PartialEq, Eq, Debug)]
pub struct FirstFault {
    pub fault: TextFault,
    pub at: Position,
}

/// Bytes of a text. Contracts see them as a list.
#[derive(Debug, Drop)]
pub struct Spelling<'a> {
    bytes: &'a [u8],
}

impl<'a> Model for Spelling<'a> {
    ghost use Rattle.std.specs.Prelude.{List, ℕ};
    ghost use Rattle.std.specs.Coded.{coded_list, coded_ℕ};

    ghost Value = { List ℕ };

    ghost coded = { coded_list coded_ℕ };

    ghost view = { λ s. s.bytes.now };
}

impl<'a> Spelling<'a> {
    pub(crate) fn new(bytes: &'a [u8]) -> Spelling<'a>
        ensures { result ≡ bytes.now }
    {
        Spelling { bytes }
    }

    pub fn as_slice(&self) -> &'a [u8]
        ensures { result.now ≡ self.now }
    {
        self.bytes
    }
}

/// What a token is; this project's own.
#[derive(Debug, Drop)]
pub enum Symbol<'a> {
    Opening,
    Closing,
    /// The bytes of the word.
    Word(Spelling<'a>),
    /// The name between the quotes.
    Quoted(Spelling<'a>),
}

/// A token, and the place of its first byte; this project's own.
#[derive(Debug, Drop)]
pub struct TextToken<'a> {
    pub symbol: Symbol<'a>,
    pub at: Position,
}
