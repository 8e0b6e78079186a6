ghost use Rattle.std.specs.Prelude.{◌≡◌, None, ◌<◌, ◌^◌};
ghost use Rattle.rw_io.specs.States.{NoSinkCountFell};

use machine_runs::{Outcome, RunError, Steps, Turn, run};
use machine_steps::End;
use rw_io::Sink;
use std::alloc::AllocError;

/// A machine that counts down.
#[derive(Clone, Copy, Debug)]
pub struct Countdown {
    pub left: u64,
    pub count: u64,
    pub end: Option<End>,
}

impl Steps for Countdown {
    ghost use Rattle.machine_runs_rows.specs.Countdowns.{next_of};

    ghost next = { next_of };

    ghost over = { λ c. c.end };

    ghost made = { λ c. c.count };

    fn ended(&self) -> Option<End> {
        self.end
    }

    fn step(&mut self) -> Result<Turn, AllocError> {
        if let Some(end) = self.end {
            return Ok(Turn::Ended(end));
        }
        self.count += 1;
        if self.left == 0 {
            self.end = Some(End::Value(0));
            return Ok(Turn::Ended(End::Value(0)));
        }
        let number = self.left;
        self.left -= 1;
        Ok(Turn::Printed(number.cast_signed()))
    }
}

/// Counts down from a number, with at most so many steps.
pub fn count_down<O: Sink>(from: u64, steps: u64, out: &mut O) -> Result<Outcome, RunError>
    ensures { NoSinkCountFell (O.state out.old) (O.state out.new) }
{
    let mut machine = Countdown {
        left: from,
        count: 0,
        end: None,
    };
    run(&mut machine, steps, out)
}
