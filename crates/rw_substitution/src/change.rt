ghost use Rattle.std.specs.Prelude.{◌≡◌, IfOk};

use rich_types::Depth;
use rw_types::Ty;
use std::alloc::{AllocError, Global};

/// A change of the numbers of a type; this project's own.
pub trait Change {
    ghost use Rattle.rich_types.specs.Walks.{Leaves};

    /// What becomes of each number.
    ghost leaves: { Self → Leaves };

    /// What becomes of a location below so many binders. `AllocError` where that is no number of 32 bits.
    fn location(&self, depth: Depth, n: u32) -> Result<u32, AllocError>
        ensures { IfOk result (λ m. m ≡ (leaves self.now).location depth n) };

    /// What becomes of a type variable below so many binders. `AllocError` where memory is wanting, and where a number
    /// has more than 32 bits.
    fn variable(&self, alloc: Global, depth: Depth, n: u32) -> Result<Ty, AllocError>
        ensures { IfOk result (λ t. t ≡ (leaves self.now).variable depth n) };
}
