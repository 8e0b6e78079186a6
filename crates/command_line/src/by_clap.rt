// The command of the texts that `clap` reads. No clause rests on it.
use clap_words::{BuildTexts, ExecTexts, RunTexts, Texts};
use words::{Build, Command, Dump, Exec, Run, Show, number, source_file};

/// The command of these texts. `None` where a number of it is none, or its file is no source.
pub fn command_of<'a>(texts: Texts<'a>) -> Option<Command<'a>> {
    match texts {
        Texts::Build(build) => build_of(build),
        Texts::Run(run) => run_of(run),
        Texts::Exec(exec) => exec_of(exec),
        Texts::Show(file) => show_of(file),
        Texts::Dump(file) => Some(Command::Dump(Dump { file })),
    }
}

fn build_of<'a>(texts: BuildTexts<'a>) -> Option<Command<'a>> {
    Some(Command::Build(Build {
        lin: pages(1, texts.lin)?,
        unr: pages(0, texts.unr)?,
        name: texts.name,
        source: source_file(texts.file)?,
    }))
}

fn run_of<'a>(texts: RunTexts<'a>) -> Option<Command<'a>> {
    Some(Command::Run(Run {
        lin: pages(1, texts.lin)?,
        unr: pages(0, texts.unr)?,
        steps: steps(texts.steps)?,
        source: source_file(texts.file)?,
    }))
}

fn exec_of<'a>(texts: ExecTexts<'a>) -> Option<Command<'a>> {
    Some(Command::Exec(Exec {
        steps: steps(texts.steps)?,
        file: texts.file,
    }))
}

fn show_of<'a>(file: &'a str) -> Option<Command<'a>> {
    Some(Command::Show(Show {
        source: source_file(file)?,
    }))
}

fn pages(least: u64, text: Option<&str>) -> Option<u32> {
    match text {
        Some(text) => u32::try_from(number(least, 512, text)?).ok(),
        None => Some(16),
    }
}

fn steps(text: Option<&str>) -> Option<u64> {
    match text {
        Some(text) => number(1, 1_000_000_000_000, text),
        None => Some(100_000_000),
    }
}
