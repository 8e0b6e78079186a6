ghost use Rattle.words.specs.Sources.{NamesModules, TellsSources};
ghost use Rattle.words.specs.Words.{CommandOrNone, OneCommand};

/// A law: words spell at most one command.
pub fn one_command()
    ensures { OneCommand }
{}

/// A law: words spell a command, or they spell none.
pub fn a_command_or_none()
    ensures { CommandOrNone }
{}

/// A law: the names of source files are those of a folder, a module's name and `.rich`, and that name is the one
/// that is found; this project's own.
pub fn source_files()
    ensures sources { TellsSources }
    ensures modules { NamesModules }
{}
