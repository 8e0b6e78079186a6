// The text of a source is read, or refused by its first fault.
ghost use Rattle.std.specs.Prelude.{◌≡◌, ℕ, List, Err};
ghost use Rattle.std.specs.Option.{option_map};
ghost use Rattle.rw_read.specs.Reading.{Tells, fault_in};
ghost use Rattle.rwc_reports.specs.Sources.{TextReads, text_fault_name};
ghost use Rattle.rwc_acts.specs.Stops.{IsStep};

use rw_read::{TextError, TextFault, read};
use rw_types::Module;
use rwc_acts::Stop;
use rwc_lines::lines;
use std::alloc::Global;
use words::{SourceFile, SourceKind};

/// The module that the text of a source spells. A `Stop` is its refusal, or want of memory; this project's own.
pub fn read_source(alloc: Global, source: &SourceFile<'_>, bytes: &[u8]) -> Result<Module, Stop>
    ensures { IsStep (λ m. m) (TextReads source.now.kind source.now.file.now bytes.now) result }
{
    match source.kind {
        SourceKind::Rich => read_rich(alloc, source.file, bytes),
    }
}

// The module that a Rich text spells.
fn read_rich(alloc: Global, file: &str, bytes: &[u8]) -> Result<Module, Stop>
    ensures { IsStep (λ m. m) (TextReads SourceKind.Rich file.now bytes.now) result }
{
    match read(alloc, bytes) {
        Ok(module) => Ok(module),
        Err(error) => Err(refuse(alloc, file, error)),
    }
}

// The refusal of each text of which this error tells.
fn refuse(alloc: Global, file: &str, error: TextError) -> Stop
    ensures { (bytes : List ℕ) → Tells bytes error → IsStep (λ m. m) (TextReads SourceKind.Rich file.now bytes) (Err result) }
{
    match name_of(error.fault) {
        Some(fault) => {
            let line = lines::text(alloc, file, error.line, error.column, fault);
            Stop::refused(1, line)
        }
        None => Stop::Memory,
    }
}

// The name of a fault. Want of memory is none.
fn name_of(fault: TextFault) -> Option<&'static str>
    ensures { option_map (λ name. name.now) result ≡ option_map text_fault_name (fault_in fault) }
{
    match fault {
        TextFault::BadUtf8 => Some("BadUtf8"),
        TextFault::BadToken => Some("BadToken"),
        TextFault::BadForm => Some("BadForm"),
        TextFault::NumberOut => Some("NumberOut"),
        TextFault::TooDeep => Some("TooDeep"),
        TextFault::Unended => Some("Unended"),
        TextFault::Memory => None,
    }
}
