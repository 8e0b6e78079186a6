// The last line of a run.
ghost use Rattle.std.specs.Prelude.{◌≡◌, ◌⊎◌, IfOk, string_bytes};
ghost use Rattle.rw_io.specs.Counts.{Rose};
ghost use Rattle.rw_io.specs.States.{ShelfState};
ghost use Rattle.rwc_reports.specs.Acts.{outside_of};
ghost use Rattle.rwc_acts.specs.Stops.{IfStopped};
ghost use Rattle.rwc_runs.specs.Executions.{last_text, done_as, PutsLast};

use rw_io::Sink;
use rwc_acts::{Done, Stop, put_piece};
use rwc_lines::lines;
use std::alloc::{AllocError, Global};
use wasm_run::{End, Outcome};

/// Puts the line that says how a run stands after so many steps.
pub fn put_last<O: Sink>(
    alloc: Global,
    outcome: Outcome,
    count: u64,
    out: &mut O,
) -> Result<Done, Stop>
    ensures puts { (shelf : ShelfState) → PutsLast (last_text outcome count) (outside_of shelf (O.state out.old)) (outside_of shelf (O.state out.new)) result }
    ensures done { IfOk result (λ done. done ≡ done_as outcome) }
    ensures cause { IfStopped result (λ _ _. ⊥) (λ _. ⊥) (λ _. Rose (O.state out.old).faults (O.state out.new).faults
        ⊎ Rose (O.state out.old).stalls (O.state out.new).stalls) }
{
    let Ok(line) = last_line(alloc, outcome, count) else {
        return Err(Stop::Memory);
    };
    match put_piece(alloc, out, line.as_bytes()) {
        Ok(()) => Ok(done_of(outcome)),
        Err(stop) => Err(stop),
    }
}

fn last_line(alloc: Global, outcome: Outcome, count: u64) -> Result<String, AllocError>
    ensures { IfOk result (λ line. string_bytes line ≡ last_text outcome count) }
{
    match outcome {
        Outcome::Ended(end) => lines::ended(alloc, end, count),
        Outcome::Spent => lines::spent(alloc, count),
    }
}

fn done_of(outcome: Outcome) -> Done
    ensures { result ≡ done_as outcome }
{
    match outcome {
        Outcome::Ended(End::Value(_)) => Done::Finished,
        Outcome::Ended(End::Trap(_)) => Done::Trapped,
        Outcome::Spent => Done::Spent,
    }
}
