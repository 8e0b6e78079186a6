ghost use Rattle.std.specs.Prelude.{◌≡◌, ◌↔◌, ◌++◌, IsTrue, IfOk, OnOk};

use std::alloc::{AllocError, Global};
use wasm_ast::List;

/// What can be compared.
pub trait Compare {
    /// Whether both are the same tree.
    fn same(&self, other: &Self) -> bool
        ensures { IsTrue result ↔ (self.now ≡ other.now) };
}

/// What can be copied.
pub trait Duplicate: Drop {
    /// An equal tree. `AllocError` where memory is wanting.
    fn duplicate(&self, alloc: Global) -> Result<Self, AllocError>
        ensures { IfOk result (λ copied. copied ≡ self.now) };
}

/// Whether two lists have the same entries in the same order.
pub fn same_entries<T: Compare>(a: &[T], b: &[T]) -> bool
    ensures { IsTrue result ↔ (a.now ≡ b.now) }
{
    if a.len() != b.len() {
        return false;
    }
    for (x, y) in a.iter().zip(b) {
        if !x.same(y) {
            return false;
        }
    }
    true
}

/// A copy of a list. `AllocError` where memory is wanting, and where there are 2^32 entries or more.
pub fn copy_entries<T: Duplicate>(alloc: Global, entries: &[T]) -> Result<List<T>, AllocError>
    ensures { IfOk result (λ copied. copied ≡ entries.now) }
{
    let mut copied = List::new(alloc);
    push_copies(alloc, &mut copied, entries)?;
    Ok(copied)
}

// Puts a copy of each entry at the end.
fn push_copies<T: Duplicate>(
    alloc: Global,
    copied: &mut List<T>,
    entries: &[T],
) -> Result<(), AllocError>
    ensures { OnOk result (copied.new ≡ copied.old ++ entries.now) }
{
    for entry in entries {
        copied.push(entry.duplicate(alloc)?)?;
    }
    Ok(())
}
