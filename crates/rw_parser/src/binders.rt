ghost use Rattle.std.specs.Prelude.{codes, ◌<◌};
ghost use Rattle.rich_text.specs.Forms.{binder_form, binders_form};
ghost use Rattle.rich_text.specs.Grammars.{a_form, many};
ghost use Rattle.rw_parser.specs.Reads.{Reads, a_part, behind_head, the_fields};

use crate::errors::{ReadError, bad_form};
use crate::parser::{FormStart, Parser, is_word};
use rw_types::{Binder, List};

/// Binders of function types; an error is the first fault, or want of memory.
impl<'a> Parser<'a> {
    /// What stands behind `(loc`.
    pub fn location_binder(&mut self) -> Result<Binder, ReadError>
        requires { 0 < self.old.left.depth }
        ensures { Reads (behind_head binder_form (codes "loc")) 1 self.old self.new result }
    {
        let memory = self.memory()?;
        self.close()?;
        Ok(Binder::Loc(memory))
    }

    /// What stands behind `(type`.
    pub fn type_binder(&mut self) -> Result<Binder, ReadError>
        requires { 0 < self.old.left.depth }
        ensures { Reads (behind_head binder_form (codes "type")) 1 self.old self.new result }
    {
        let qualifier = self.qualifier()?;
        let size = self.index()?;
        self.close()?;
        Ok(Binder::Kind(qualifier, size))
    }

    /// A binder.
    pub fn binder(&mut self) -> Result<Binder, ReadError>
        ensures { Reads (a_part (a_form binder_form)) 0 self.old self.new result }
    {
        match self.start()? {
            FormStart::Word(_word, at) => Err(bad_form(at)),
            FormStart::Head(word, at) => {
                if is_word(&word, b"loc") {
                    self.location_binder()
                } else if is_word(&word, b"type") {
                    self.type_binder()
                } else {
                    Err(bad_form(at))
                }
            }
        }
    }

    /// Binders, and the `)` behind them.
    pub fn binders(&mut self) -> Result<List<Binder>, ReadError>
        requires { 0 < self.old.left.depth }
        ensures { Reads (the_fields (many (a_form binder_form))) 1 self.old self.new result }
    {
        let mut binders = List::new(self.alloc());
        while !self.closes() {
            binders.push(self.binder()?)?;
        }
        Ok(binders)
    }

    /// A list of binders.
    pub fn binder_list(&mut self) -> Result<List<Binder>, ReadError>
        ensures { Reads (a_part (a_form binders_form)) 0 self.old self.new result }
    {
        self.open()?;
        let binders = self.binders()?;
        Ok(binders)
    }
}
