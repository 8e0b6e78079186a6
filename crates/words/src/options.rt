// Options at the front of words, each of them two words, and the words after them.
ghost use Rattle.std.specs.Prelude.{◌≡◌, ◌<◌, ◌≤◌, ◌++◌, ℕ, List, [], ◌∷◌, map, string_bytes, length, IfSome};
ghost use Rattle.std.specs.Option.{option_map, option_copied};
ghost use Rattle.std.specs.List.{list_all, list_any};
ghost use Rattle.std.specs.Str.{bytes_eq};
ghost use Rattle.words.specs.Words.{values_for, GivesNumber, GivesName};
ghost use Rattle.words.specs.Found.{Finds};
ghost use Rattle.words.specs.Reading.{begins_with_dash, front_of, settings_of, files_after, shown_front, AreGiven};

use crate::files::is_plain;
use crate::numbers::number;

// The first option, and the words after it.
#[derive(Clone, Copy)]
struct Front<'a> {
    flag: &'a str,
    value: &'a str,
    rest: &'a [String],
}

// The values that options give for a flag: none, one, or more.
#[derive(Clone, Copy)]
enum Given<'a> {
    Never,
    Once(&'a str),
    Often,
}

fn has_dash(word: &str) -> bool
    ensures { result ≡ begins_with_dash word.now }
{
    match word.as_bytes() {
        [] => false,
        [first, ..] => *first == b'-',
    }
}

fn take_front<'a>(words: &'a [String]) -> Option<Front<'a>>
    ensures front { option_map shown_front result ≡ front_of (map string_bytes words.now) }
    ensures less { IfSome result (λ front. length front.rest.now < length words.now) }
{
    let [flag, value, rest @ ..] = words else {
        return None;
    };
    if has_dash(flag.as_str()) {
        Some(Front {
            flag: flag.as_str(),
            value: value.as_str(),
            rest,
        })
    } else {
        None
    }
}

/// The words after the options.
pub fn files<'a>(words: &'a [String]) -> &'a [String]
    ensures { map string_bytes result.now ≡ files_after (map string_bytes words.now) }
{
    let mut rest = words;
    while let Some(front) = take_front(rest) {
        rest = front.rest;
    }
    rest
}

/// Whether each option is one of these.
pub fn have_flags(words: &[String], flags: &[&str]) -> bool
    ensures { result ≡ list_all (λ setting. list_any (bytes_eq setting.flag) (map (λ flag. flag.now) flags.now)) (settings_of (map string_bytes words.now)) }
{
    let mut rest = words;
    while let Some(front) = take_front(rest) {
        if !is_one_of(front.flag, flags) {
            return false;
        }
        rest = front.rest;
    }
    true
}

fn is_one_of(word: &str, flags: &[&str]) -> bool
    ensures { result ≡ list_any (bytes_eq word.now) (map (λ flag. flag.now) flags.now) }
{
    for flag in flags {
        if word == *flag {
            return true;
        }
    }
    false
}

fn one_more<'a>(given: Given<'a>, value: &'a str) -> Given<'a>
    ensures { (values : List (List ℕ)) → AreGiven given.entry values → AreGiven result (values ++ (value.entry.now ∷ [])) }
{
    match given {
        Given::Never => Given::Once(value),
        Given::Once(_) => Given::Often,
        Given::Often => Given::Often,
    }
}

// The values of a flag.
fn values_given<'a>(words: &'a [String], flag: &str) -> Given<'a>
    ensures { AreGiven result (values_for flag.now (settings_of (map string_bytes words.now))) }
{
    let mut given = Given::Never;
    let mut rest = words;
    while let Some(front) = take_front(rest) {
        if front.flag == flag {
            given = one_more(given, front.value);
        }
        rest = front.rest;
    }
    given
}

/// The name that an option gives, which has to be given once. `None` where it is not, or is no name.
pub fn name_for<'a>(words: &'a [String], flag: &str) -> Option<&'a str>
    ensures { Finds (GivesName (values_for flag.now (settings_of (map string_bytes words.now)))) (option_map (λ name. name.now) result) }
{
    match values_given(words, flag) {
        Given::Once(name) if is_plain(name) => Some(name),
        _ => None,
    }
}

/// The number that an option gives, and a default where it is not given. `None` where it is given twice, or
/// is no number from `least` to `greatest`.
pub fn number_for(
    words: &[String],
    flag: &str,
    least: u64,
    greatest: u64,
    default: u64,
) -> Option<u64>
    requires { (least ≤ default) × (default ≤ greatest) }
    ensures number { Finds (GivesNumber least greatest default (values_for flag.now (settings_of (map string_bytes words.now)))) result }
    ensures range { IfSome result (λ n. (least ≤ n) × (n ≤ greatest)) }
{
    match values_given(words, flag) {
        Given::Never => Some(default),
        Given::Once(text) => number(least, greatest, text),
        Given::Often => None,
    }
}
