// The plain form, word by word.
ghost use Rattle.std.specs.Prelude.{◌≡◌, ◌∷◌, ℕ, List, map, string_bytes, codes, IfSome};
ghost use Rattle.std.specs.Option.{option_map};
ghost use Rattle.words.specs.Words.{SpellsCommand, GivesPages, GivesSteps};
ghost use Rattle.words.specs.Reading.{settings_of};
ghost use Rattle.words.specs.Found.{Finds};
ghost use Rattle.words.specs.Commands.{spelled_command, InRanges, ArePages, AreSteps};

use crate::files::{only_name, only_source};
use crate::options::{files, have_flags, name_for, number_for};
use crate::{Build, Command, Dump, Exec, Run, Show};

/// The command that words of the plain form spell. `None` where they are not of it; this project's own.
pub fn plain_command<'a>(words: &'a [String]) -> Option<Command<'a>>
    ensures command { Finds (SpellsCommand (map string_bytes words.now)) (option_map spelled_command result) }
    ensures ranges { IfSome result (λ command. InRanges (spelled_command command)) }
{
    let [command, rest @ ..] = words else {
        return None;
    };
    match command.as_str() {
        "build" => plain_build(rest),
        "run" => plain_run(rest),
        "exec" => plain_exec(rest),
        "show" => plain_show(rest),
        "dump" => plain_dump(rest),
        _ => None,
    }
}

// What the words after `build` spell.
fn plain_build<'a>(rest: &'a [String]) -> Option<Command<'a>>
    ensures command { Finds (SpellsCommand (codes "build" ∷ map string_bytes rest.now)) (option_map spelled_command result) }
    ensures ranges { IfSome result (λ command. InRanges (spelled_command command)) }
{
    if !have_flags(rest, &["-o", "--lin", "--unr"]) {
        return None;
    }
    let pages = pages_for(rest)?;
    let name = name_for(rest, "-o")?;
    let source = only_source(files(rest))?;
    Some(Command::Build(Build {
        lin: pages.lin,
        unr: pages.unr,
        name,
        source,
    }))
}

// What the words after `run` spell.
fn plain_run<'a>(rest: &'a [String]) -> Option<Command<'a>>
    ensures command { Finds (SpellsCommand (codes "run" ∷ map string_bytes rest.now)) (option_map spelled_command result) }
    ensures ranges { IfSome result (λ command. InRanges (spelled_command command)) }
{
    if !have_flags(rest, &["--lin", "--unr", "--steps"]) {
        return None;
    }
    let pages = pages_for(rest)?;
    let steps = steps_for(rest)?;
    let source = only_source(files(rest))?;
    Some(Command::Run(Run {
        lin: pages.lin,
        unr: pages.unr,
        steps,
        source,
    }))
}

// What the words after `exec` spell.
fn plain_exec<'a>(rest: &'a [String]) -> Option<Command<'a>>
    ensures command { Finds (SpellsCommand (codes "exec" ∷ map string_bytes rest.now)) (option_map spelled_command result) }
    ensures ranges { IfSome result (λ command. InRanges (spelled_command command)) }
{
    if !have_flags(rest, &["--steps"]) {
        return None;
    }
    let steps = steps_for(rest)?;
    let file = only_name(files(rest))?;
    Some(Command::Exec(Exec { steps, file }))
}

// What the words after `show` spell: they are one source.
fn plain_show<'a>(rest: &'a [String]) -> Option<Command<'a>>
    ensures command { Finds (SpellsCommand (codes "show" ∷ map string_bytes rest.now)) (option_map spelled_command result) }
    ensures ranges { IfSome result (λ command. InRanges (spelled_command command)) }
{
    let source = only_source(rest)?;
    Some(Command::Show(Show { source }))
}

// What the words after `dump` spell: they are one file.
fn plain_dump<'a>(rest: &'a [String]) -> Option<Command<'a>>
    ensures command { Finds (SpellsCommand (codes "dump" ∷ map string_bytes rest.now)) (option_map spelled_command result) }
    ensures ranges { IfSome result (λ command. InRanges (spelled_command command)) }
{
    let file = only_name(rest)?;
    Some(Command::Dump(Dump { file }))
}

// The pages that options give.
#[derive(Clone, Copy)]
struct Pages {
    lin: u32,
    unr: u32,
}

fn pages_for(rest: &[String]) -> Option<Pages>
    ensures pages { Finds (λ (pages : ℕ × ℕ). GivesPages (settings_of (map string_bytes rest.now)) pages.0 pages.1) (option_map (λ pages. (pages.lin, pages.unr)) result) }
    ensures ranges { IfSome result (λ pages. ArePages pages.lin pages.unr) }
{
    let lin = number_for(rest, "--lin", 1, 512, 16)?;
    let unr = number_for(rest, "--unr", 0, 512, 16)?;
    Some(Pages {
        lin: lin as u32,
        unr: unr as u32,
    })
}

fn steps_for(rest: &[String]) -> Option<u64>
    ensures steps { Finds (GivesSteps (settings_of (map string_bytes rest.now))) result }
    ensures ranges { IfSome result AreSteps }
{
    number_for(rest, "--steps", 1, 1_000_000_000_000, 100_000_000)
}
