ghost use Rattle.std.specs.Prelude.{◌≡◌, ◌+◌, IfOk};
ghost use Rattle.rich_types.specs.Walks.{below, below_location, below_variable};

use rich_types::Depth;
use rw_types::Binder;
use std::alloc::AllocError;

/// One location binder deeper. `AllocError` past 64 bits.
#[tactic(auto, unfolding(rich_types::specs::Walks::below_location))]
pub fn below_location(depth: Depth) -> Result<Depth, AllocError>
    ensures { IfOk result (λ d. d ≡ below_location depth) }
{
    Ok(Depth {
        locations: depth.locations.checked_add(1).ok_or(AllocError)?,
        variables: depth.variables,
    })
}

/// One type binder deeper. `AllocError` past 64 bits.
#[tactic(auto, unfolding(rich_types::specs::Walks::below_variable))]
pub fn below_variable(depth: Depth) -> Result<Depth, AllocError>
    ensures { IfOk result (λ d. d ≡ below_variable depth) }
{
    Ok(Depth {
        locations: depth.locations,
        variables: depth.variables.checked_add(1).ok_or(AllocError)?,
    })
}

/// Below these binders. `AllocError` past 64 bits.
pub fn below(binders: &[Binder], depth: Depth) -> Result<Depth, AllocError>
    ensures { IfOk result (λ d. d ≡ below binders.now depth) }
{
    let mut deeper = depth;
    for binder in binders {
        deeper = match binder {
            Binder::Loc(_) => below_location(deeper)?,
            Binder::Kind(_, _) => below_variable(deeper)?,
        };
    }
    Ok(deeper)
}

/// A number raised. `AllocError` past 32 bits.
pub fn raised(n: u32, by: u64) -> Result<u32, AllocError>
    ensures { IfOk result (λ m. m ≡ n + by) }
{
    let sum = u64::from(n).checked_add(by).ok_or(AllocError)?;
    u32::try_from(sum).map_err(|_| AllocError)
}
