// How a job ends: done, or stopped with a line that says why.
ghost use Rattle.std.specs.Prelude.{◌≡◌, MatchResult};

use std::alloc::AllocError;

/// The number with which the program ends: 0 done, 1 a text, a source or a module refused, 2 words refused,
/// 3 a file missing or too long, 4 a load failed, 5 a write failed or stalled, 6 a trap, 7 steps spent,
/// 8 want of memory, 9 a binary refused, 10 a link refused, 11 too wide or too many; this project's own.
#[derive(Clone, Copy, Debug, PartialEq, Eq)]
pub struct Status(pub u8);

/// A job that was done.
#[derive(Clone, Copy, Debug, PartialEq, Eq)]
pub enum Done {
    Finished,
    /// The program that was run trapped.
    Trapped,
    /// The steps that were allowed were spent.
    Spent,
}

/// A job that was not done.
#[derive(Debug, Drop)]
pub enum Stop {
    /// It was refused, and nothing was done.
    Refused { status: u8, line: String },
    /// A file could not be loaded, and nothing was done.
    Unread { line: String },
    /// A create, an append or a put failed or stalled.
    Unwritten { line: String },
    /// Memory was wanting.
    Memory,
}

impl From<AllocError> for Stop {
    ghost use Rattle.rwc_acts.specs.declared.ending.Stop.TheVariants.{Memory};

    ghost from_gives = { λ _ e. e ≡ Memory };

    fn from(_error: AllocError) -> Stop {
        Stop::Memory
    }
}

impl Done {
    ghost use Rattle.rwc_acts.specs.Stops.{done_status};

    pub fn status(self) -> u8
        ensures { result ≡ done_status self }
    {
        match self {
            Done::Finished => 0,
            Done::Trapped => 6,
            Done::Spent => 7,
        }
    }
}

impl Stop {
    ghost use Rattle.rwc_acts.specs.Stops.{stop_status, stop_line};

    pub fn status(&self) -> u8
        ensures { result ≡ stop_status self.now }
    {
        match self {
            Stop::Refused { status, .. } => *status,
            Stop::Unread { .. } => 4,
            Stop::Unwritten { .. } => 5,
            Stop::Memory => 8,
        }
    }

    pub fn line(&self) -> &str
        ensures { result.now ≡ stop_line self.now }
    {
        match self {
            Stop::Refused { line, .. } => line.as_str(),
            Stop::Unread { line } => line.as_str(),
            Stop::Unwritten { line } => line.as_str(),
            Stop::Memory => "no memory\n",
        }
    }

    /// A refusal with this line, where there was memory for it.
    pub fn refused(status: u8, line: Result<String, AllocError>) -> Stop
        ensures { MatchResult line (λ text. result ≡ Stop.Refused status text) (λ _. result ≡ Stop.Memory) }
    {
        match line {
            Ok(line) => Stop::Refused { status, line },
            Err(_) => Stop::Memory,
        }
    }

    /// A failed load with this line, where there was memory for it.
    pub fn unread(line: Result<String, AllocError>) -> Stop
        ensures { MatchResult line (λ text. result ≡ Stop.Unread text) (λ _. result ≡ Stop.Memory) }
    {
        match line {
            Ok(line) => Stop::Unread { line },
            Err(_) => Stop::Memory,
        }
    }

    /// A failed write with this line, where there was memory for it.
    pub fn unwritten(line: Result<String, AllocError>) -> Stop
        ensures { MatchResult line (λ text. result ≡ Stop.Unwritten text) (λ _. result ≡ Stop.Memory) }
    {
        match line {
            Ok(line) => Stop::Unwritten { line },
            Err(_) => Stop::Memory,
        }
    }
}
