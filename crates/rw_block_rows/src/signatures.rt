ghost use Rattle.std.specs.Prelude.{◌≡◌, ◌++◌, length, slice_get};
ghost use Rattle.std.specs.Option.{option_copied};
ghost use Rattle.rich_types.specs.Scopes.{scope_of};
ghost use Rattle.rich_rules.specs.Blocks.{is_named, are_named_once, local_types, first_too_large, fits_in, signed};
ghost use Rattle.rich_rules.specs.Forms.{first_ill_formed};
ghost use Rattle.rich_rules.specs.Points.{Frame, Point, Outcome};
ghost use Rattle.rw_struct_looks.specs.Takes.{Allows};
ghost use Rattle.rw_block_rows.specs.Entries.{with_slots, standing};

use rich_typing::Rule;
use rw_quals_sizes::Ctx;
use rw_row_answers::{CapError, bare, broken};
use rw_type_tests::{first_ill_formed, fits, is_formed};
use rw_types::{BlockSig, LocalTy, Ty};
use std::alloc::Global;

/// Whether the signature of a block stands: its locals are among these and named once, its types are well formed, and those of
/// its locals fit their slots. This project's own. It answers the first condition that is broken; want of memory alone is free.
pub fn look_signature(
    alloc: Global,
    c: &Ctx,
    slots: &[u32],
    locals: &[Ty],
    b: &BlockSig,
) -> Result<(), CapError>
    ensures { (f : Frame) (p : Point) (rest : Outcome) → Allows result (signed (with_slots slots.now f) (standing c.now.binders locals.now p.operands p) b.now rest) rest }
{
    if !are_named_once(locals.len(), b.locals.as_slice()) {
        return Err(bare(Rule::Index));
    }
    if let Some(t) = ill_formed_type(c, b) {
        return Err(broken(alloc, Rule::TypeForm, t));
    }
    match first_too_large(c, slots, b.locals.as_slice()) {
        Some(t) => Err(broken(alloc, Rule::SlotSize, t)),
        None => Ok(()),
    }
}

/// Whether the local with this number is among these.
fn is_named(n: u32, changes: &[LocalTy]) -> bool
    ensures { result ≡ is_named n changes.now }
{
    for change in changes {
        if n == change.index {
            return true;
        }
    }
    false
}

/// Whether these locals are among so many, and none is named twice.
fn are_named_once(count: usize, changes: &[LocalTy]) -> bool
    ensures { result ≡ are_named_once count changes.now }
{
    for (at, change) in changes.iter().enumerate() {
        if change.index as usize >= count || is_named(change.index, &changes[at + 1..]) {
            return false;
        }
    }
    true
}

/// The first type of a signature that is not well formed.
fn ill_formed_type<'a>(c: &Ctx, b: &'a BlockSig) -> Option<&'a Ty>
    ensures { option_copied result ≡ first_ill_formed (scope_of c.now.binders) (b.now.params ++ b.now.results ++ local_types b.now.locals) }
{
    if let Some(t) = first_ill_formed(c, b.params.as_slice()) {
        return Some(t);
    }
    if let Some(t) = first_ill_formed(c, b.results.as_slice()) {
        return Some(t);
    }
    ill_formed_local(c, b.locals.as_slice())
}

/// The first type of a local that is not well formed.
fn ill_formed_local<'a>(c: &Ctx, changes: &'a [LocalTy]) -> Option<&'a Ty>
    ensures { option_copied result ≡ first_ill_formed (scope_of c.now.binders) (local_types changes.now) }
{
    for change in changes {
        if !is_formed(c, &change.ty) {
            return Some(&change.ty);
        }
    }
    None
}

/// The first type of a local that is larger than its slot.
fn first_too_large<'a>(c: &Ctx, slots: &[u32], changes: &'a [LocalTy]) -> Option<&'a Ty>
    ensures { option_copied result ≡ first_too_large (scope_of c.now.binders) slots.now changes.now }
{
    for change in changes {
        if !fits_slot(c, slots, change.index as usize, &change.ty) {
            return Some(&change.ty);
        }
    }
    None
}

/// Whether a type fits the slot of this number, where there is one.
fn fits_slot(c: &Ctx, slots: &[u32], at: usize, t: &Ty) -> bool
    ensures { result ≡ fits_in (scope_of c.now.binders) (slice_get slots.now at) t.now }
{
    match slots.get(at) {
        Some(slot) => fits(c, *slot, t),
        None => true,
    }
}
