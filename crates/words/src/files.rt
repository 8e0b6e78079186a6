// The names of files: which are plain words, and which are those of sources; the only file of words.
ghost use Rattle.std.specs.Prelude.{◌≡◌, [], ◌∷◌, map, string_bytes, ◌==◌, ◌<◌, ◌+◌, ◌^◌, length, position, IfSome};
ghost use Rattle.std.specs.Option.{option_copied, option_map};
ghost use Rattle.words.specs.Files.{is_plain_name, is_source_file, is_module_name, after_last_slash, module_name_of};
ghost use Rattle.words.specs.Found.{Finds};
ghost use Rattle.words.specs.Reading.{IsOnlySource, IsOnlyName};
ghost use Rattle.words.specs.Words.{IsSourceNamed};
ghost use Rattle.words.specs.Commands.{spelled_source};
ghost use Rattle.rw_types.specs.Names.{IsName};

use crate::{SourceFile, SourceKind};
use rw_types::is_name;

/// Whether a word is a name: it is not empty and does not begin with a dash.
pub fn is_plain(word: &str) -> bool
    ensures { result ≡ is_plain_name word.now }
{
    match word.as_bytes() {
        [] => false,
        [first, ..] => *first != b'-',
    }
}

/// The source file that is the only one of the words. `None` where there is no such one.
pub fn only_source<'a>(words: &'a [String]) -> Option<SourceFile<'a>>
    ensures { Finds (IsOnlySource (map string_bytes words.now)) (option_map spelled_source result) }
{
    source_file(only_word(words)?)
}

/// The name that is the only one of the words. `None` where there is no such one.
pub fn only_name<'a>(words: &'a [String]) -> Option<&'a str>
    ensures { Finds (IsOnlyName (map string_bytes words.now)) (option_map (λ name. name.now) result) }
{
    match only_word(words) {
        Some(name) if is_plain(name) => Some(name),
        _ => None,
    }
}

fn only_word<'a>(words: &'a [String]) -> Option<&'a str>
    ensures { Finds (λ word. map string_bytes words.now ≡ word ∷ []) (option_map (λ word. word.now) result) }
{
    match words {
        [word] => Some(word.as_str()),
        _ => None,
    }
}

/// The source file of this name. `None` where it is not the name of a source.
pub fn source_file<'a>(file: &'a str) -> Option<SourceFile<'a>>
    ensures { Finds (IsSourceNamed file.now) (option_map spelled_source result) }
{
    if !is_source(file) {
        return None;
    }
    let name = module_name(file)?;
    Some(SourceFile {
        file,
        name,
        kind: SourceKind::Rich,
    })
}

/// Whether a file's name is that of a source: it does not begin with a dash, and its last part is a module's
/// name and `.rich`.
fn is_source(file: &str) -> bool
    ensures { result ≡ is_source_file file.now }
{
    is_plain(file) && module_name(file).is_some_and(is_module)
}

fn is_module(name: &[u8]) -> bool
    ensures { result ≡ is_module_name name.now }
{
    is_name(name)
}

/// The name of a file's module: the last part of the file's name, without `.rich`.
fn module_name<'a>(file: &'a str) -> Option<&'a [u8]>
    ensures { option_copied result ≡ module_name_of file.now }
{
    last_part(file.as_bytes()).strip_suffix(b".rich")
}

// What stands after the last slash.
fn last_part(file: &[u8]) -> &[u8]
    ensures { result.now ≡ after_last_slash file.now }
{
    let mut part = file;
    loop {
        match first_slash(part) {
            Some(at) => part = &part[at + 1..],
            None => return part,
        }
    }
}

fn first_slash(part: &[u8]) -> Option<usize>
    ensures place { result ≡ position (λ b. b == 47) part.now }
    ensures within { IfSome result (λ at. at < length part.now) }
    ensures small { IfSome result (λ at. at + 1 < 2 ^ 64) }
{
    part.iter().position(|b| *b == b'/')
}
