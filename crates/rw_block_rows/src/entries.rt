ghost use Rattle.std.specs.Prelude.{◌≡◌, IfOk};
ghost use Rattle.rw_block_rows.specs.Entries.{aimed, entry_over};

use crate::locals::changed_locals;
use rw_copy::copy_types;
use rw_types::{Binder, BlockSig, List, Ty};
use std::alloc::{AllocError, Global};

/// The types of operands, the last one on top, and those of locals; this project's own.
#[derive(Drop)]
pub struct Types {
    pub operands: List<Ty>,
    pub locals: List<Ty>,
}

/// Where a branch to a label goes: to the start of its list, or behind the instruction; this project's own.
#[derive(Clone, Copy)]
pub enum Aim {
    Start,
    Behind,
}

/// The lists that an instruction enters; this project's own. The label of each stands outside the binder.
#[derive(Drop)]
pub struct Entry {
    /// The binder that each list stands below, if there is one.
    pub binder: Option<Binder>,
    /// Where a branch to the label goes.
    pub aim: Aim,
    /// What each list begins with, below the binder.
    pub start: Types,
    /// What lies on top of that, list by list; nothing where there is no such type.
    pub payloads: List<Ty>,
    /// What the end of each list demands, below the binder.
    pub end: Types,
    /// What stands behind the instruction: these operands over those beneath, and all locals.
    pub after: Types,
}

impl Entry {
    /// What a branch to the label carries, and the locals there.
    pub fn label(&self) -> &Types
        ensures { result.now ≡ aimed self.now.aim self.now.start self.now.after }
    {
        match self.aim {
            Aim::Start => &self.start,
            Aim::Behind => &self.after,
        }
    }
}

/// Copies of types of operands and of locals. `AllocError` where memory is wanting.
pub fn copied(alloc: Global, operands: &[Ty], locals: &[Ty]) -> Result<Types, AllocError>
    ensures { IfOk result (λ types. types ≡ record { operands = operands.now; locals = locals.now }) }
{
    Ok(Types {
        operands: copy_types(alloc, operands)?,
        locals: copy_types(alloc, locals)?,
    })
}

/// The lists of a block of this signature, without a binder, where the locals have these types. `AllocError` where memory is
/// wanting.
pub fn entry_over(
    alloc: Global,
    aim: Aim,
    locals: &[Ty],
    b: &BlockSig,
    payloads: List<Ty>,
) -> Result<Entry, AllocError>
    ensures { IfOk result (λ entry. entry ≡ entry_over aim locals.now b.now payloads) }
{
    let changed = changed_locals(alloc, b.locals.as_slice(), locals)?;
    Ok(Entry {
        binder: None,
        aim,
        start: copied(alloc, b.params.as_slice(), locals)?,
        payloads,
        end: copied(alloc, b.results.as_slice(), changed.as_slice())?,
        after: Types {
            operands: copy_types(alloc, b.results.as_slice())?,
            locals: changed,
        },
    })
}
