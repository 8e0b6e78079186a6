//! The answer to a row.

use crate::piles::{Piles, number, parted};
use rich_types::Depth;
use rw_copy::{copy, copy_function, copy_types, same, same_function, same_types};
use rw_quals_sizes::{Ctx, fits, qual_of, size_of, well_formed, well_formed_function};
use rw_substitution::{raise, substitute};
use rw_types::{FunType, List, Pre, Qual, Ty};
use std::alloc::{AllocError, Global};

/// What a row is answered with.
pub(crate) enum Answer {
    Number(u32),
    Truth(bool),
    Qualifier(Qual),
    Memory,
    Unread,
}

/// The answer to a row.
pub(crate) fn answer_to(alloc: Global, row: &str) -> Answer {
    match read(alloc, row) {
        Some(answer) => answer,
        None => Answer::Unread,
    }
}

fn read(alloc: Global, row: &str) -> Option<Answer> {
    let mut piles = Piles::new(alloc);
    let (parts, question) = row.rsplit_once(' ')?;
    for word in parts.split(' ') {
        piles.put(alloc, word)?;
    }
    asked(alloc, &mut piles, question)
}

fn asked(alloc: Global, piles: &mut Piles, question: &str) -> Option<Answer> {
    let (name, rest) = parted(question);
    match name {
        "same" => are_same(piles),
        "copied" => is_copied(alloc, piles),
        "instance" => is_instance(alloc, piles),
        "raised" => is_raised(alloc, piles, rest),
        _ => asked_under(alloc, piles, name, rest),
    }
}

fn are_same(piles: &mut Piles) -> Option<Answer> {
    let last = piles.types.pop()?;
    let other = piles.types.pop()?;
    Some(Answer::Truth(same(&other, &last)))
}

fn is_copied(alloc: Global, piles: &mut Piles) -> Option<Answer> {
    let last = piles.types.pop()?;
    Some(answer_of(copies_agree(alloc, &last)))
}

fn is_instance(alloc: Global, piles: &mut Piles) -> Option<Answer> {
    let wanted = piles.types.pop()?;
    let t = piles.types.pop()?;
    Some(is_made(substitute(alloc, &t, piles.args.as_slice()), &wanted))
}

fn is_raised(alloc: Global, piles: &mut Piles, rest: &str) -> Option<Answer> {
    let by = depth(rest)?;
    let wanted = piles.types.pop()?;
    let t = piles.types.pop()?;
    Some(is_made(raise(alloc, &t, by), &wanted))
}

fn depth(text: &str) -> Option<Depth> {
    let (locations, variables) = parted(text);
    Some(Depth {
        locations: u64::from(number(locations)?),
        variables: u64::from(number(variables)?),
    })
}

fn asked_under(alloc: Global, piles: &mut Piles, name: &str, rest: &str) -> Option<Answer> {
    let t = piles.types.pop()?;
    let binders = List::from_slice(alloc, piles.binders.as_slice()).ok()?;
    asked_of(&Ctx { binders }, &t, name, rest)
}

fn asked_of(c: &Ctx, t: &Ty, name: &str, rest: &str) -> Option<Answer> {
    match name {
        "size" => Some(Answer::Number(size_of(c, t))),
        "qual" => Some(Answer::Qualifier(qual_of(c, t))),
        "formed" => Some(Answer::Truth(well_formed(c, t))),
        "fits" => Some(Answer::Truth(fits(c, number(rest)?, t))),
        "function" => match t {
            Ty::Of(_, Pre::Code(f)) => Some(Answer::Truth(well_formed_function(c, f.get()))),
            _ => None,
        },
        _ => None,
    }
}

fn is_made(made: Result<Ty, AllocError>, wanted: &Ty) -> Answer {
    match made {
        Ok(t) => Answer::Truth(same(&t, wanted)),
        Err(_) => Answer::Memory,
    }
}

fn answer_of(outcome: Result<bool, AllocError>) -> Answer {
    match outcome {
        Ok(is) => Answer::Truth(is),
        Err(_) => Answer::Memory,
    }
}

/// Whether a copy is the same, and, of a function type, copies of its parts.
fn copies_agree(alloc: Global, t: &Ty) -> Result<bool, AllocError> {
    let whole = same(&copy(alloc, t)?, t);
    match t {
        Ty::Of(_, Pre::Code(f)) => Ok(whole && function_copies_agree(alloc, f.get())?),
        _ => Ok(whole),
    }
}

fn function_copies_agree(alloc: Global, f: &FunType) -> Result<bool, AllocError> {
    let whole = same_function(&copy_function(alloc, f)?, f);
    let params = copy_types(alloc, f.params.as_slice())?;
    Ok(whole && same_types(params.as_slice(), f.params.as_slice()))
}
