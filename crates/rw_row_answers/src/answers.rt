ghost use Rattle.std.specs.Prelude.{◌≡◌, Some, None};
ghost use Rattle.rich_rules.specs.Points.{Breaks, Broke};
ghost use Rattle.rw_row_answers.specs.Answers.{Breaking};

use rich_typing::Rule;
use rw_copy::copy;
use rw_types::Ty;
use std::alloc::{AllocError, Global};

/// Why an instruction was refused: the first rule that it breaks, with the type that breaks it and the type that is
/// demanded, where there are such; or want of memory. This project's own.
#[derive(Drop)]
pub enum CapError {
    Broken {
        rule: Rule,
        found: Option<Ty>,
        expected: Option<Ty>,
    },
    Memory,
}

impl From<AllocError> for CapError {
    ghost use Rattle.rw_row_answers.specs.declared.answers.CapError.TheVariants.{Memory};

    ghost from_gives = { λ _ e. e ≡ Memory };

    fn from(_: AllocError) -> CapError {
        CapError::Memory
    }
}

/// What an instruction gives for the operands that it takes; this project's own.
#[derive(Drop)]
pub enum Given {
    Nothing,
    One(Ty),
    Two { top: Ty, under: Ty },
    /// The deepest operand that was taken.
    Kept,
    /// This type, over the deepest operand that was taken.
    Over(Ty),
}

/// A broken rule, told without a type.
pub fn bare(rule: Rule) -> CapError
    ensures { Breaking result (Breaks (Broke rule None None)) }
{
    CapError::Broken {
        rule,
        found: None,
        expected: None,
    }
}

/// A rule that is broken by this type; or want of memory.
pub fn broken(alloc: Global, rule: Rule, found: &Ty) -> CapError
    ensures { Breaking result (Breaks (Broke rule (Some found.now) None)) }
{
    match copy(alloc, found) {
        Ok(found) => CapError::Broken {
            rule,
            found: Some(found),
            expected: None,
        },
        Err(_) => CapError::Memory,
    }
}

/// A rule that is broken by this type where that one is demanded; or want of memory.
pub fn broken_for(alloc: Global, rule: Rule, found: &Ty, expected: &Ty) -> CapError
    ensures { Breaking result (Breaks (Broke rule (Some found.now) (Some expected.now))) }
{
    match (copy(alloc, found), copy(alloc, expected)) {
        (Ok(found), Ok(expected)) => CapError::Broken {
            rule,
            found: Some(found),
            expected: Some(expected),
        },
        _ => CapError::Memory,
    }
}
