ghost use Rattle.std.specs.Prelude.{◌≡◌};
ghost use Rattle.rw_tokens.specs.Streams.{fault_of, found_of};
ghost use Rattle.rw_read.specs.Reading.{TellsFound, TellsOf, fault_in};

use rw_parser::ReadError;
use rw_tokens::{FirstFault, TextFault as TokenFault};

/// Why a text is not read; this project's own.
#[derive(Clone, Copy, PartialEq, Eq, Debug)]
pub enum TextFault {
    /// The text is not UTF-8 here.
    BadUtf8,
    /// No token begins here.
    BadToken,
    /// No form goes on with this token.
    BadForm,
    /// A number is out of its range.
    NumberOut,
    /// More than 200 lists would be open here.
    TooDeep,
    /// The text ends within its module.
    Unended,
    /// Memory is wanting, or a line or a column does not fit 32 bits.
    Memory,
}

/// A fault, with its line and its column in bytes, both counted from 1. Beside `Memory` both are 0; this project's own.
#[derive(Clone, Copy, PartialEq, Eq, Debug)]
pub struct TextError {
    pub line: u32,
    pub column: u32,
    pub fault: TextFault,
}

const WANT_OF_MEMORY: TextError = TextError {
    line: 0,
    column: 0,
    fault: TextFault::Memory,
};

fn text_fault(fault: TokenFault) -> TextFault
    ensures { fault_in result ≡ Some (fault_of fault) }
{
    match fault {
        TokenFault::BadUtf8 => TextFault::BadUtf8,
        TokenFault::BadToken => TextFault::BadToken,
        TokenFault::BadForm => TextFault::BadForm,
        TokenFault::NumberOut => TextFault::NumberOut,
        TokenFault::TooDeep => TextFault::TooDeep,
        TokenFault::Unended => TextFault::Unended,
    }
}

/// What is told of a first fault.
pub fn error_at(first: FirstFault) -> TextError
    ensures { TellsFound result (found_of first) }
{
    let (Ok(line), Ok(column)) = (u32::try_from(first.at.line), u32::try_from(first.at.column))
    else {
        return WANT_OF_MEMORY;
    };
    TextError {
        line,
        column,
        fault: text_fault(first.fault),
    }
}

/// What is told where a text is not read.
pub fn error_of(error: ReadError) -> TextError
    ensures { TellsOf error result }
{
    match error {
        ReadError::Fault(first) => error_at(first),
        ReadError::Memory => WANT_OF_MEMORY,
    }
}
