ghost use Rattle.rich_text.specs.Forms.{memory_form, mutability_form, privilege_form, qualifier_form};
ghost use Rattle.rich_text.specs.Grammars.{a_form};
ghost use Rattle.rw_parser.specs.Reads.{Reads, a_part};

use crate::errors::{ReadError, bad_form};
use crate::parser::{Parser, is_word};
use rw_types::{Mem, Priv, Qual};

/// Forms that are one word; an error is the first fault.
impl<'a> Parser<'a> {
    /// A memory.
    pub fn memory(&mut self) -> Result<Mem, ReadError>
        ensures { Reads (a_part (a_form memory_form)) 0 self.old self.new result }
    {
        let (word, at) = self.word()?;
        if is_word(&word, b"L") {
            Ok(Mem::L)
        } else if is_word(&word, b"U") {
            Ok(Mem::U)
        } else {
            Err(bad_form(at))
        }
    }

    /// A qualifier.
    pub fn qualifier(&mut self) -> Result<Qual, ReadError>
        ensures { Reads (a_part (a_form qualifier_form)) 0 self.old self.new result }
    {
        let (word, at) = self.word()?;
        if is_word(&word, b"unr") {
            Ok(Qual::Unr)
        } else if is_word(&word, b"lin") {
            Ok(Qual::Lin)
        } else {
            Err(bad_form(at))
        }
    }

    /// What a reference or a capability allows.
    pub fn privilege(&mut self) -> Result<Priv, ReadError>
        ensures { Reads (a_part (a_form privilege_form)) 0 self.old self.new result }
    {
        let (word, at) = self.word()?;
        if is_word(&word, b"rw") {
            Ok(Priv::Rw)
        } else if is_word(&word, b"r") {
            Ok(Priv::R)
        } else {
            Err(bad_form(at))
        }
    }

    /// Whether a global can be set.
    pub fn mutability(&mut self) -> Result<bool, ReadError>
        ensures { Reads (a_part (a_form mutability_form)) 0 self.old self.new result }
    {
        let (word, at) = self.word()?;
        if is_word(&word, b"mut") {
            Ok(true)
        } else if is_word(&word, b"const") {
            Ok(false)
        } else {
            Err(bad_form(at))
        }
    }
}
