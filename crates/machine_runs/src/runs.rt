//! The loop of a run.
ghost use Rattle.std.specs.Prelude.{◌≡◌, ◌+◌, ◌<◌, ◌^◌, IfOk, IfErr};
ghost use Rattle.rw_io.specs.States.{NoSinkCountFell};
ghost use Rattle.machine_runs.specs.Runs.{Runs, Stops, error_of};
ghost use Rattle.machine_runs.specs.Advances.{Advances};

use crate::answers::{Outcome, RunError, Turn};
use crate::line::put_line;
use crate::steps::Steps;
use machine_steps::End;
use rw_io::{Sink, Unwritten, WriteStop};

/// The error where a line was not put whole.
fn stopped(unwritten: Unwritten) -> RunError
    ensures { result ≡ error_of unwritten }
{
    match unwritten.stop {
        WriteStop::Failed => RunError::Write(unwritten.left),
        WriteStop::Stalled => RunError::Stalled(unwritten.left),
        WriteStop::Memory => RunError::Memory,
    }
}

/// Makes a step, and puts the number that it prints on a line; how the machine has ended, where it has.
fn advance<M: Steps, O: Sink>(machine: &mut M, out: &mut O) -> Result<Option<End>, RunError>
    requires { M.made machine.old + 1 < 2 ^ 64 }
    ensures advances { Advances M.next M.over M.made machine.old result machine.new (O.state out.old) (O.state out.new) }
    ensures counts { NoSinkCountFell (O.state out.old) (O.state out.new) }
{
    match machine.step() {
        Ok(Turn::Went) => Ok(None),
        Ok(Turn::Printed(number)) => match put_line(out, number) {
            Ok(()) => Ok(None),
            Err(unwritten) => Err(stopped(unwritten)),
        },
        Ok(Turn::Ended(end)) => Ok(Some(end)),
        Err(_) => Err(RunError::Memory),
    }
}

/// Makes at most so many steps, and puts each printed number as decimal text and a newline, as one piece. `Spent` where after
/// that many steps the machine has not ended. `Write` and `Stalled` tell the length of the piece that the sink was offered
/// last: the step that printed was made, and the machine may go on. `Memory` comes from a step, which was not made, or from the
/// sink, after the step that printed.
pub fn run<M: Steps, O: Sink>(machine: &mut M, steps: u64, out: &mut O) -> Result<Outcome, RunError>
    requires { M.made machine.old + steps < 2 ^ 64 }
    ensures runs { IfOk result (λ outcome. Runs M.next M.over M.made steps machine.old outcome machine.new (O.state out.old) (O.state out.new)) }
    ensures stops { IfErr result (λ error. Stops M.next M.over M.made steps machine.old error machine.new (O.state out.old) (O.state out.new)) }
    ensures counts { NoSinkCountFell (O.state out.old) (O.state out.new) }
{
    if let Some(end) = machine.ended() {
        return Ok(Outcome::Ended(end));
    }
    for _ in 0..steps {
        match advance(machine, out) {
            Ok(None) => {}
            Ok(Some(end)) => return Ok(Outcome::Ended(end)),
            Err(error) => return Err(error),
        }
    }
    Ok(Outcome::Spent)
}
