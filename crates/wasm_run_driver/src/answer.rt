//! How a run ended, and why there is none.
use std::fmt::{self, Display, Formatter, Write};
use wasm_reading::DecodeError;
use wasm_run::{End, Outcome, RunError, StartError};
use wasm_validate::ValidateError;

/// Why a binary does not run.
#[derive(Drop)]
pub enum Refusal {
    NotStarted(StartError),
    Invalid(ValidateError),
    Malformed(DecodeError),
    /// The line is no number of steps and hex.
    Unread,
}

impl Display for Refusal {
    fn fmt<W: Write>(&self, f: &mut Formatter<W>) -> fmt::Result {
        match self {
            Refusal::NotStarted(StartError::UnknownImport(at)) => write!(f, "start import {at}"),
            Refusal::NotStarted(StartError::SegmentOut(at)) => write!(f, "start segment {at}"),
            Refusal::NotStarted(StartError::NoMain) => f.write_str("start no main"),
            Refusal::NotStarted(StartError::Memory) => f.write_str("out of memory"),
            Refusal::Invalid(error) => write_violation(f, error),
            Refusal::Malformed(error) => write!(f, "malformed at {} {:?}", error.at, error.fault),
            Refusal::Unread => f.write_str("unread"),
        }
    }
}

/// The function, the place and the rule.
fn write_violation<W: Write>(f: &mut Formatter<W>, error: &ValidateError) -> fmt::Result {
    let ValidateError::Invalid { func, at, rule } = error else {
        return f.write_str("out of memory");
    };
    match func {
        Some(func) => write!(f, "invalid function {func} at {at} {rule:?}"),
        None => write!(f, "invalid function - at {at} {rule:?}"),
    }
}

/// How a run stands after so many steps.
#[derive(Drop)]
pub struct Ending {
    pub outcome: Result<Outcome, RunError>,
    pub steps: u64,
}

impl Display for Ending {
    fn fmt<W: Write>(&self, f: &mut Formatter<W>) -> fmt::Result {
        let steps = self.steps;
        match &self.outcome {
            Ok(Outcome::Ended(End::Value(value))) => write!(
                f,
                "result {value} after {steps} steps"
            ),
            Ok(Outcome::Ended(End::Trap(trap))) => write!(f, "trap {trap:?} after {steps} steps"),
            Ok(Outcome::Spent) => write!(f, "spent after {steps} steps"),
            Err(error) => write!(f, "{error} after {steps} steps"),
        }
    }
}
