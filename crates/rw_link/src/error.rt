ghost use Rattle.std.specs.Prelude.{◌≡◌};

use rw_types::FunType;
use std::alloc::AllocError;
use std::fmt::{self, Debug, Formatter, Write};
use thiserror::Error;

/// What a link answers in place of a program. Files and their imports are numbered from 0 on, in their
/// order. `found` is the type of the export, and `expected` that of the import; this project's own.
#[derive(Drop, Error)]
pub enum LinkError {
    #[error("files {first} and {second} have one name")]
    DuplicateModule {
        first: u32,
        second: u32,
    },
    #[error("import {import} of file {file} names no file")]
    NoModule {
        file: u32,
        import: u32,
    },
    #[error("import {import} of file {file} names no export")]
    NoExport {
        file: u32,
        import: u32,
    },
    #[error("import {import} of file {file} has another type than its export")]
    TypeDiffers {
        file: u32,
        import: u32,
        found: FunType,
        expected: FunType,
    },
    #[error("the last file exports no main")]
    NoMain,
    #[error("the main function has another type")]
    MainType,
    #[error("out of memory")]
    Memory,
}

impl From<AllocError> for LinkError {
    ghost use Rattle.rw_link.specs.declared.error.LinkError.TheVariants.{Memory};

    ghost from_gives = { λ _ e. e ≡ Memory };

    fn from(_: AllocError) -> LinkError {
        LinkError::Memory
    }
}

impl Debug for LinkError {
    fn fmt<W: Write>(&self, f: &mut Formatter<W>) -> fmt::Result {
        write!(f, "{self}")
    }
}
