// The lines of a text.
ghost use Rattle.std.specs.Prelude.{◌≡◌, ◌==◌, ◌<◌, ◌+◌, ◌^◌, ◌⊎◌, length, position, IfOk, IfSome};
ghost use Rattle.rw_io.specs.Counts.{Rose};
ghost use Rattle.rw_io.specs.States.{ShelfState};
ghost use Rattle.rwc_reports.specs.Acts.{outside_of};
ghost use Rattle.rwc_reports.specs.Endings.{CarriesOut};
ghost use Rattle.rwc_reports.specs.Jobs.{lines_job};
ghost use Rattle.rwc_reports.specs.Shows.{lines_of};
ghost use Rattle.rwc_acts.specs.Stops.{IfStopped, status_of, line_of};
ghost use Rattle.rwc_shows.specs.Lines.{FirstLine};

use rw_io::Sink;
use rwc_acts::{Done, Stop, put_piece};
use std::alloc::Global;

/// Puts the lines of a text one after another, each a piece of its own.
pub fn put_text<O: Sink>(alloc: Global, out: &mut O, text: &[u8]) -> Result<Done, Stop>
    ensures carries_out { (shelf : ShelfState) → CarriesOut (lines_job (lines_of text.now) 0) (outside_of shelf (O.state out.old))
        (outside_of shelf (O.state out.new)) (status_of result) (line_of result) }
    ensures finished { IfOk result (λ done. done ≡ Done.Finished) }
    ensures causes { IfStopped result (λ _ _. ⊥) (λ _. ⊥) (λ _. Rose (O.state out.old).faults (O.state out.new).faults
        ⊎ Rose (O.state out.old).stalls (O.state out.new).stalls) }
{
    let mut rest = text;
    while !rest.is_empty() {
        let (line, after) = rest.split_at(line_length(rest));
        if let Err(stop) = put_piece(alloc, out, line) {
            return Err(stop);
        }
        rest = after;
    }
    Ok(Done::Finished)
}

// The length of a text's first line, its end counted.
fn line_length(text: &[u8]) -> usize
    requires { 0 < length text.now }
    ensures { FirstLine text.now result }
{
    match first_newline(text) {
        Some(at) => at + 1,
        None => text.len(),
    }
}

fn first_newline(text: &[u8]) -> Option<usize>
    ensures place { result ≡ position (λ b. b == 10) text.now }
    ensures small { IfSome result (λ at. at + 1 < 2 ^ 64) }
{
    text.iter().position(|b| *b == b'\n')
}
