//! The texts of the words of the command line, as `clap` reads them. It is a second reading, on which no clause rests;
//! there are no definitions and no laws.
#![tactic(auto)]

use clap::error::ErrorKind;
use clap::{Arg, ArgAction, ArgMatches, Command, Error};
use std::alloc::{AllocError, Global};

/// The texts of a command; this project's own.
#[derive(Clone, Copy)]
pub enum Texts<'a> {
    Build(BuildTexts<'a>),
    Run(RunTexts<'a>),
    Exec(ExecTexts<'a>),
    /// The file of `show`.
    Show(&'a str),
    /// The file of `dump`.
    Dump(&'a str),
}

/// The texts of `build`, the counts of pages where they are given.
#[derive(Clone, Copy)]
pub struct BuildTexts<'a> {
    pub lin: Option<&'a str>,
    pub unr: Option<&'a str>,
    pub name: &'a str,
    pub file: &'a str,
}

/// The texts of `run`, the numbers where they are given.
#[derive(Clone, Copy)]
pub struct RunTexts<'a> {
    pub lin: Option<&'a str>,
    pub unr: Option<&'a str>,
    pub steps: Option<&'a str>,
    pub file: &'a str,
}

/// The texts of `exec`, the number of steps where it is given.
#[derive(Clone, Copy)]
pub struct ExecTexts<'a> {
    pub steps: Option<&'a str>,
    pub file: &'a str,
}

/// The texts that `clap` finds in the words; `None` where it refuses them. An error is want of memory.
pub fn read_by_clap<'a>(
    alloc: Global,
    words: &'a [String],
) -> Result<Option<Texts<'a>>, AllocError> {
    match read(alloc, words) {
        Ok(texts) => Ok(texts),
        Err(error) if error.kind() == ErrorKind::OutOfMemory => Err(AllocError),
        Err(_) => Ok(None),
    }
}

fn read<'a>(alloc: Global, words: &'a [String]) -> Result<Option<Texts<'a>>, Error> {
    let matches = tool(alloc)?.try_get_matches_from(words)?;
    Ok(texts_of(&matches))
}

fn tool<'a>(alloc: Global) -> Result<Command<'a>, AllocError> {
    let show = file_words(alloc, "show")?;
    let dump = file_words(alloc, "dump")?;
    tool_of_runs(alloc)?.subcommand(show)?.subcommand(dump)
}

fn tool_of_runs<'a>(alloc: Global) -> Result<Command<'a>, AllocError> {
    let run = run_words(alloc)?;
    let exec = exec_words(alloc)?;
    tool_of_build(alloc)?.subcommand(run)?.subcommand(exec)
}

fn tool_of_build<'a>(alloc: Global) -> Result<Command<'a>, AllocError> {
    let build = build_words(alloc)?;
    Command::new(alloc, "rwc")
        .no_binary_name(true)
        .subcommand(build)
}

fn build_words<'a>(alloc: Global) -> Result<Command<'a>, AllocError> {
    Command::new(alloc, "build")
        .arg(number_word(alloc, "lin"))?
        .arg(number_word(alloc, "unr"))?
        .arg(name_word(alloc))?
        .arg(file_word(alloc))
}

fn run_words<'a>(alloc: Global) -> Result<Command<'a>, AllocError> {
    Command::new(alloc, "run")
        .arg(number_word(alloc, "lin"))?
        .arg(number_word(alloc, "unr"))?
        .arg(number_word(alloc, "steps"))?
        .arg(file_word(alloc))
}

fn exec_words<'a>(alloc: Global) -> Result<Command<'a>, AllocError> {
    Command::new(alloc, "exec")
        .arg(number_word(alloc, "steps"))?
        .arg(file_word(alloc))
}

fn file_words<'a>(alloc: Global, name: &'a str) -> Result<Command<'a>, AllocError> {
    Command::new(alloc, name).arg(file_word(alloc))
}

fn number_word<'a>(alloc: Global, name: &'a str) -> Arg<'a> {
    Arg::new(alloc, name).long(name).action(ArgAction::Set)
}

fn name_word<'a>(alloc: Global) -> Arg<'a> {
    Arg::new(alloc, "name")
        .short('o')
        .required(true)
        .action(ArgAction::Set)
}

fn file_word<'a>(alloc: Global) -> Arg<'a> {
    Arg::new(alloc, "file")
        .required(true)
        .action(ArgAction::Set)
}

fn texts_of<'a>(matches: &ArgMatches<'a>) -> Option<Texts<'a>> {
    match matches.subcommand() {
        Some(("build", build)) => Some(Texts::Build(build_texts(build)?)),
        Some(("run", run)) => Some(Texts::Run(run_texts(run)?)),
        Some(("exec", exec)) => Some(Texts::Exec(exec_texts(exec)?)),
        Some(("show", show)) => Some(Texts::Show(show.get_str("file")?)),
        Some(("dump", dump)) => Some(Texts::Dump(dump.get_str("file")?)),
        _ => None,
    }
}

fn build_texts<'a>(matches: &ArgMatches<'a>) -> Option<BuildTexts<'a>> {
    Some(BuildTexts {
        lin: matches.get_str("lin"),
        unr: matches.get_str("unr"),
        name: matches.get_str("name")?,
        file: matches.get_str("file")?,
    })
}

fn run_texts<'a>(matches: &ArgMatches<'a>) -> Option<RunTexts<'a>> {
    Some(RunTexts {
        lin: matches.get_str("lin"),
        unr: matches.get_str("unr"),
        steps: matches.get_str("steps"),
        file: matches.get_str("file")?,
    })
}

fn exec_texts<'a>(matches: &ArgMatches<'a>) -> Option<ExecTexts<'a>> {
    Some(ExecTexts {
        steps: matches.get_str("steps"),
        file: matches.get_str("file")?,
    })
}
