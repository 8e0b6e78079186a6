//! The words of the command line: the project's own reading of them decides, and `clap` reads the words that have the plain form
//! a second time. Definitions: the words that spell a command, of `words`.
#![tactic(auto)]

ghost use Rattle.std.specs.Prelude.{◌≡◌, ◌↔◌, map, string_bytes, IfOk, IfSome, IsTrue};
ghost use Rattle.std.specs.Option.{option_map};
ghost use Rattle.words.specs.Words.{SpellsCommand};
ghost use Rattle.words.specs.Found.{Finds};
ghost use Rattle.words.specs.Commands.{spelled_command, spelled_source, InRanges};

mod by_clap;

use by_clap::command_of;
use clap_words::read_by_clap;
use std::alloc::{AllocError, Global};
use words::{Command, SourceFile, plain_command};

/// The command that words of the plain form spell, `None` where they are not of it. An error is want of memory
/// while `clap` read them; this project's own.
pub fn read_words<'a>(alloc: Global, words: &'a [String]) -> Result<Option<Command<'a>>, AllocError>
    ensures command { IfOk result (λ command. Finds (SpellsCommand (map string_bytes words.now)) (option_map spelled_command command)) }
    ensures ranges { IfOk result (λ command. IfSome command (λ command. InRanges (spelled_command command))) }
{
    let Some(plain) = plain_command(words) else {
        return Ok(None);
    };
    match read_by_clap(alloc, words)?.and_then(command_of) {
        Some(read) if is_same(&read, &plain) => Ok(Some(read)),
        _ => Ok(Some(plain)),
    }
}

fn is_same(read: &Command<'_>, plain: &Command<'_>) -> bool
    ensures { IsTrue result ↔ (spelled_command read.now ≡ spelled_command plain.now) }
{
    match (*read, *plain) {
        (Command::Build(read), Command::Build(plain)) => {
            read.lin == plain.lin
                && read.unr == plain.unr
                && read.name == plain.name
                && is_same_source(&read.source, &plain.source)
        }
        (Command::Run(read), Command::Run(plain)) => {
            read.lin == plain.lin
                && read.unr == plain.unr
                && read.steps == plain.steps
                && is_same_source(&read.source, &plain.source)
        }
        (Command::Exec(read), Command::Exec(plain)) => {
            read.steps == plain.steps && read.file == plain.file
        }
        (Command::Show(read), Command::Show(plain)) => is_same_source(&read.source, &plain.source),
        (Command::Dump(read), Command::Dump(plain)) => read.file == plain.file,
        _ => false,
    }
}

fn is_same_source(read: &SourceFile<'_>, plain: &SourceFile<'_>) -> bool
    ensures { IsTrue result ↔ (spelled_source read.now ≡ spelled_source plain.now) }
{
    read.file == plain.file && read.name == plain.name && read.kind == plain.kind
}
