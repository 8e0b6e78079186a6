ghost use Rattle.std.specs.Prelude.{codes, ◌<◌};
ghost use Rattle.rich_text.specs.Forms.{export_form};
ghost use Rattle.rich_text.specs.Grammars.{a_form};
ghost use Rattle.rw_parser.specs.Reads.{Reads, a_part, behind_head};

use crate::errors::{ReadError, bad_form};
use crate::parser::{FormStart, Parser, is_word};
use rw_types::ExportDef;

/// Exports; an error is the first fault, or want of memory.
impl<'a> Parser<'a> {
    /// What stands behind `(export`.
    pub fn export_fields(&mut self) -> Result<ExportDef, ReadError>
        requires { 0 < self.old.left.depth }
        ensures { Reads (behind_head export_form (codes "export")) 1 self.old self.new result }
    {
        let name = self.name()?;
        let func = self.index()?;
        self.close()?;
        Ok(ExportDef { name, func })
    }

    /// An export.
    pub fn export(&mut self) -> Result<ExportDef, ReadError>
        ensures { Reads (a_part (a_form export_form)) 0 self.old self.new result }
    {
        match self.start()? {
            FormStart::Word(_word, at) => Err(bad_form(at)),
            FormStart::Head(word, at) => {
                if is_word(&word, b"export") {
                    self.export_fields()
                } else {
                    Err(bad_form(at))
                }
            }
        }
    }
}
