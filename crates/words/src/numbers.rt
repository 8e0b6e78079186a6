// Numbers in words.
ghost use Rattle.std.specs.Prelude.{◌≤◌, IfSome};
ghost use Rattle.words.specs.Words.{IsNumber};
ghost use Rattle.words.specs.Found.{Finds};

use itoa::Buffer;

/// The number that a word is: decimal digits without leading zeros, from `least` to `greatest`.
/// `None` where it is no such number; this project's own.
pub fn number(least: u64, greatest: u64, text: &str) -> Option<u64>
    ensures number { Finds (IsNumber least greatest text.now) result }
    ensures range { IfSome result (λ n. (least ≤ n) × (n ≤ greatest)) }
{
    let n = text.parse::<u64>().ok()?;
    let mut buffer = Buffer::new();
    if buffer.format(n) == text && least <= n && n <= greatest {
        Some(n)
    } else {
        None
    }
}
