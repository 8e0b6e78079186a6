//! Machines that make steps.
ghost use Rattle.std.specs.Prelude.{◌≡◌, ◌+◌, ◌<◌, ◌^◌};
ghost use Rattle.machine_runs.specs.Turns.{Turns};

use crate::answers::Turn;
use machine_steps::End;
use std::alloc::AllocError;

/// A machine that makes steps; this project's own.
pub trait Steps {
    ghost use Rattle.std.specs.Prelude.{ℕ, Option};
    ghost use Rattle.machine_steps.specs.declared.End.{End};
    ghost use Rattle.machine_steps.specs.Steps.{Turn};

    /// A step of a machine that has not ended: the numbers that it prints, and what it leads to.
    ghost next: { Self → Turn ℕ Self };

    /// How a machine has ended, where it has.
    ghost over: { Self → Option End };

    /// How many steps a machine has made.
    ghost made: { Self → ℕ };

    /// How the machine has ended, where it has. It takes no memory.
    fn ended(&self) -> Option<End>
        ensures { result ≡ over self.now };

    /// Makes a step, where the machine has not ended. `AllocError` leaves the machine as it was.
    fn step(&mut self) -> Result<Turn, AllocError>
        requires { made self.old + 1 < 2 ^ 64 }
        ensures { Turns next over made self.old result self.new };
}
