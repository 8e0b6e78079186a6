ghost use Rattle.std.specs.Prelude.{◌≡◌};
ghost use Rattle.std.specs.Option.{option_map};
ghost use Rattle.rich_text.specs.Utf8.{between, continue, ill_formed, more_of, second_in};
ghost use Rattle.rw_tokens.specs.Streams.{place_of};

use crate::cursor::Cursor;
use crate::symbols::Position;

/// The first byte that begins no well-formed sequence of UTF-8 (The Unicode Standard, section 3.9, table 3-7). `None`
/// where the text is well formed.
pub fn first_ill_formed(text: &[u8]) -> Option<Position>
    ensures { option_map place_of result ≡ ill_formed text.now }
{
    let mut cursor = Cursor::new(text);
    let mut more: u8 = 0;
    'whole: loop {
        let at = cursor.position();
        let Some(byte) = cursor.take() else {
            return None;
        };
        if more > 0 {
            more -= 1;
        } else if let Some(count) = following(byte, cursor.as_slice()) {
            more = count;
        } else {
            return Some(at);
        }
    }
}

/// How many bytes of a sequence follow its first byte, where the bytes behind it make one.
fn following(first: u8, rest: &[u8]) -> Option<u8>
    ensures { result ≡ more_of first rest.now }
{
    if first <= 0x7F {
        Some(0)
    } else if is_between(0xC2, 0xDF, first) && one_continues(rest) {
        Some(1)
    } else if (first == 0xE0 && one_behind(0xA0, 0xBF, rest))
        || (first == 0xED && one_behind(0x80, 0x9F, rest))
    {
        Some(2)
    } else if (is_between(0xE1, 0xEC, first) || is_between(0xEE, 0xEF, first))
        && two_continue(rest)
    {
        Some(2)
    } else if (first == 0xF0 && two_behind(0x90, 0xBF, rest))
        || (first == 0xF4 && two_behind(0x80, 0x8F, rest))
    {
        Some(3)
    } else if is_between(0xF1, 0xF3, first) && three_continue(rest) {
        Some(3)
    } else {
        None
    }
}

fn is_between(low: u8, high: u8, byte: u8) -> bool
    ensures { result ≡ between low high byte }
{
    low <= byte && byte <= high
}

fn one_continues(bytes: &[u8]) -> bool
    ensures { result ≡ continue 1 bytes.now }
{
    match bytes {
        [first, ..] => is_between(0x80, 0xBF, *first),
        [] => false,
    }
}

fn two_continue(bytes: &[u8]) -> bool
    ensures { result ≡ continue 2 bytes.now }
{
    match bytes {
        [first, rest @ ..] => is_between(0x80, 0xBF, *first) && one_continues(rest),
        [] => false,
    }
}

fn three_continue(bytes: &[u8]) -> bool
    ensures { result ≡ continue 3 bytes.now }
{
    match bytes {
        [first, rest @ ..] => is_between(0x80, 0xBF, *first) && two_continue(rest),
        [] => false,
    }
}

/// Whether the first byte is in this range, and one that continues stands behind it.
fn one_behind(low: u8, high: u8, bytes: &[u8]) -> bool
    ensures { result ≡ second_in low high 1 bytes.now }
{
    match bytes {
        [first, rest @ ..] => is_between(low, high, *first) && one_continues(rest),
        [] => false,
    }
}

/// The same, with two behind it.
fn two_behind(low: u8, high: u8, bytes: &[u8]) -> bool
    ensures { result ≡ second_in low high 2 bytes.now }
{
    match bytes {
        [first, rest @ ..] => is_between(low, high, *first) && two_continue(rest),
        [] => false,
    }
}
