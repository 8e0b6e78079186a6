use machine_steps::End;
use thiserror::Error;

/// What a step did: it went on, it printed a number, or the run is over; this project's own.
#[derive(Clone, Copy, Debug, PartialEq, Eq)]
pub enum Turn {
    Went,
    Printed(i64),
    Ended(End),
}

/// How a run stands after its steps: it has ended, or it has not; this project's own.
#[derive(Clone, Copy, Debug, PartialEq, Eq)]
pub enum Outcome {
    Ended(End),
    Spent,
}

/// Why a run stopped before its last step; this project's own.
#[derive(Clone, Copy, Debug, PartialEq, Eq, Error)]
pub enum RunError {
    /// The sink failed on a piece of so many bytes.
    #[error("{0} bytes were not written")]
    Write(usize),
    /// The sink took nothing of a piece of so many bytes.
    #[error("nothing of {0} bytes was written")]
    Stalled(usize),
    /// Memory was wanting.
    #[error("out of memory")]
    Memory,
}
