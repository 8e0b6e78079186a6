//! How runs of moves in lowered code run: words between locals, globals and the Wasm operands, in an exact number of steps. It is
//! laws over definitions of the crates below.
#![tactic(auto)]

ghost use Rattle.lowering_runs.specs.Laws.{FetchesRun, GetsRun, GivesRun, MovesRun};

/// A law: words that locals or globals hold are moved by so many steps, two for a word that is moved and one for one that goes to the
/// operands; nothing else is changed, and nothing is said.
pub fn moves_run()
    ensures moves { MovesRun }
    ensures gets { GetsRun }
    ensures gives { GivesRun }
    ensures fetches { FetchesRun }
{}
