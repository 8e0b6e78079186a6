ghost use Rattle.std.specs.Prelude.{◌≡◌, ◌<◌, length, slice_get, Some};
ghost use Rattle.rich_typing.specs.Derivations.{IsTyped};

use rich_typing::{Note, Place, Rule};
use rw_types::{List, Module, Ty};
use std::alloc::AllocError;
use std::fmt::{self, Debug, Formatter, Write};
use std::marker::Model;
use thiserror::Error;

/// What a check answers in place of a module. `Refused` tells the first violation: its place, the
/// rule, the type that breaks it and the type that is demanded, where there are such; this project's own.
#[derive(Drop, Error)]
pub enum CheckError {
    #[error("the module breaks the rule {rule:?}")]
    Refused {
        place: Place,
        rule: Rule,
        found: Option<Ty>,
        expected: Option<Ty>,
    },
    #[error("out of memory")]
    Memory,
}

impl From<AllocError> for CheckError {
    ghost use Rattle.rw_program.specs.declared.checked.CheckError.TheVariants.{Memory};

    ghost from_gives = { λ _ e. e ≡ Memory };

    fn from(_: AllocError) -> CheckError {
        CheckError::Memory
    }
}

impl Debug for CheckError {
    fn fmt<W: Write>(&self, f: &mut Formatter<W>) -> fmt::Result {
        match self {
            CheckError::Refused { rule, .. } => write!(f, "Refused({rule:?})"),
            CheckError::Memory => f.write_str("Memory"),
        }
    }
}

/// A well-typed module, with the notes of its bodies: first those of its functions, then those of its
/// globals. Contracts see both; this project's own.
#[derive(Drop)]
pub struct Checked {
    source: Module,
    notes: List<List<Note>>,
}

impl Model for Checked {
    ghost use Rattle.rw_program.specs.Modules.{TypedModule};
    ghost use Rattle.rich_typing.specs.Derivations.{IsTyped};
    ghost use Rattle.std.specs.Coded.{codes};
    ghost use Rattle.rw_types.specs.contracts.instrs.Instr as instr;
    ghost use Rattle.rw_types.specs.contracts.types.Ty as ty;

    ghost Value = { TypedModule };

    ghost coded = { Prim.hlevel (codes, instr.the_row.coded, ty.the_row.coded) };

    ghost view = { λ c. record { source = c.source; notes = c.notes } };

    ghost invariant = { λ c. IsTyped c.source c.notes };
}

impl Checked {
    /// The module with these notes.
    pub fn new(source: Module, notes: List<List<Note>>) -> Checked
        requires { IsTyped source notes }
        ensures { result ≡ record { source = source; notes = notes } }
    {
        Checked { source, notes }
    }

    /// The module that was checked.
    pub fn module(&self) -> &Module
        ensures value { result.now ≡ self.now.source }
        ensures typed { IsTyped self.now.source self.now.notes }
    {
        &self.source
    }

    /// The notes of the body with this number, one for each instruction in the order of the text.
    pub fn notes(&self, body: u32) -> &List<Note>
        requires { body < length self.now.notes }
        ensures { slice_get self.now.notes body ≡ Some result.now }
    {
        &self.notes.as_slice()[body as usize]
    }

    /// The module, and the notes of all bodies.
    pub fn into_parts(self) -> (Module, List<List<Note>>)
        ensures source { result.0 ≡ self.source }
        ensures notes { result.1 ≡ self.notes }
        ensures typed { IsTyped self.source self.notes }
    {
        let Checked { source, notes } = self;
        (source, notes)
    }
}
