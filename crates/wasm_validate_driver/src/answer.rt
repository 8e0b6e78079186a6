//! What a line is answered with.
use std::alloc::Global;
use std::fmt::{self, Display, Formatter, Write};
use wasm_decode::decode;
use wasm_reading::DecodeError;
use wasm_validate::{Valid, ValidateError, validate};

/// What is told of a binary.
#[derive(Drop)]
pub enum Answer {
    Valid,
    Heights(Valid),
    Invalid(ValidateError),
    Malformed(DecodeError),
    /// The line is no hex.
    Unread,
}

impl Display for Answer {
    fn fmt<W: Write>(&self, f: &mut Formatter<W>) -> fmt::Result {
        match self {
            Answer::Valid => f.write_str("valid"),
            Answer::Heights(valid) => write_heights(f, valid),
            Answer::Invalid(error) => write_violation(f, error),
            Answer::Malformed(error) => write!(f, "malformed at {} {:?}", error.at, error.fault),
            Answer::Unread => f.write_str("unread"),
        }
    }
}

/// The height of each code.
fn write_heights<W: Write>(f: &mut Formatter<W>, valid: &Valid) -> fmt::Result {
    f.write_str("heights")?;
    let Ok(count) = u32::try_from(valid.module().codes.len()) else {
        return Err(fmt::Error);
    };
    for code in 0..count {
        write!(f, " {}", valid.height(code))?;
    }
    Ok(())
}

/// The function, the place and the rule.
fn write_violation<W: Write>(f: &mut Formatter<W>, error: &ValidateError) -> fmt::Result {
    let ValidateError::Invalid { func, at, rule } = error else {
        return f.write_str("out of memory");
    };
    match func {
        Some(func) => write!(f, "invalid function {func} at {at} {rule:?}"),
        None => write!(f, "invalid function - at {at} {rule:?}"),
    }
}

/// The answer to a line.
pub fn answer_to(alloc: Global, line: &str) -> Answer {
    match line.strip_prefix("heights ") {
        Some(binary) => answer_of(alloc, binary),
        None => without_heights(answer_of(alloc, line)),
    }
}

/// The answer to a binary in hex.
fn answer_of(alloc: Global, binary: &str) -> Answer {
    let Ok(bytes) = hex::decode(alloc, binary) else {
        return Answer::Unread;
    };
    match decode(alloc, &bytes) {
        Ok(decoded) => match validate(alloc, decoded) {
            Ok(valid) => Answer::Heights(valid),
            Err(error) => Answer::Invalid(error),
        },
        Err(error) => Answer::Malformed(error),
    }
}

/// The same answer, where heights are not asked for.
fn without_heights(answer: Answer) -> Answer {
    match answer {
        Answer::Heights(_) => Answer::Valid,
        answer => answer,
    }
}
