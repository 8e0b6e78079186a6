// What a shelf and a sink answer where they do nothing.
use thiserror::Error;

/// Why a file was not loaded; this project's own.
#[derive(Clone, Copy, Debug, PartialEq, Eq, Error)]
pub enum LoadError {
    /// There is no file of that name.
    #[error("no such file")]
    Missing,
    /// The file is longer than the limit.
    #[error("the file is too long")]
    TooLong,
    /// The outside failed, and counted it.
    #[error("the load failed")]
    Failed,
    /// Memory was wanting.
    #[error("no memory")]
    Memory,
}

/// Why a file was not created, or a piece not taken; this project's own.
#[derive(Clone, Copy, Debug, PartialEq, Eq, Error)]
pub enum PutError {
    /// The outside failed, and counted it.
    #[error("the write failed")]
    Failed,
    /// Memory was wanting.
    #[error("no memory")]
    Memory,
}
