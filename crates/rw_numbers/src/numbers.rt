ghost use Rattle.std.specs.Prelude.{◌≡◌, ◌+◌, ◌*◌, ◌-◌, ◌^◌, ◌≤◌, MatchOption};
ghost use Rattle.std.specs.Char.{is_ascii_digit};
ghost use Rattle.std.specs.List.{list_all};
ghost use Rattle.rich_text.specs.Numbers.{are_digits, natural_of, negative_of, number_of};
ghost use Rattle.rw_numbers.specs.NumberWords.{IsBelow, IsValue, least_of, modulus_of, number_is, range_of};

/// The numbers that a place of a text takes; this project's own.
#[derive(Clone, Copy, PartialEq, Eq, Debug)]
pub enum Range {
    /// 0 to 2^32 - 1.
    Index,
    /// -2^31 to 2^32 - 1, kept modulo 2^32.
    Constant32,
    /// -2^63 to 2^64 - 1, kept modulo 2^64.
    Constant64,
}

/// What a word writes; this project's own.
#[derive(Clone, Copy, PartialEq, Eq, Debug)]
pub enum NumberWord {
    /// A number in its range; a negative one by its residue.
    Within(u64),
    /// A number that is out of its range.
    OutOfRange,
    NoNumber,
}

/// What digits write.
#[derive(Clone, Copy, PartialEq, Eq, Debug)]
enum Value {
    NoDigits,
    Of(u64),
    /// 2^64 or more.
    Large,
}

/// The number of this range that a word writes.
pub fn number(range: Range, word: &[u8]) -> NumberWord
    ensures value { number_is result ≡ number_of (range_of range) word.now }
    ensures below { IsBelow (modulus_of range) result }
{
    match word {
        [first, digits @ ..] if *first == b'-' => negative(range, digits),
        _ => natural(range, word),
    }
}

fn natural(range: Range, word: &[u8]) -> NumberWord
    ensures value { number_is result ≡ natural_of (modulus_of range) word.now }
    ensures below { IsBelow (modulus_of range) result }
{
    match value_of(word) {
        Value::NoDigits => NumberWord::NoNumber,
        Value::Of(value) if value <= greatest(range) => NumberWord::Within(value),
        Value::Of(_) | Value::Large => NumberWord::OutOfRange,
    }
}

/// The number whose digits behind `-` these are.
fn negative(range: Range, digits: &[u8]) -> NumberWord
    ensures value { number_is result ≡ negative_of (least_of range) (modulus_of range) digits.now }
    ensures below { IsBelow (modulus_of range) result }
{
    match value_of(digits) {
        Value::NoDigits | Value::Of(0) => NumberWord::NoNumber,
        Value::Of(value) if value <= least(range) => NumberWord::Within(
            greatest(range) - value + 1,
        ),
        Value::Of(_) | Value::Large => NumberWord::OutOfRange,
    }
}

fn greatest(range: Range) -> u64
    ensures { result + 1 ≡ modulus_of range }
{
    match range {
        Range::Index | Range::Constant32 => 0xFFFF_FFFF,
        Range::Constant64 => u64::MAX,
    }
}

/// How far below 0 a range goes.
fn least(range: Range) -> u64
    ensures value { result ≡ least_of range }
    ensures within { result + 1 ≤ modulus_of range }
{
    match range {
        Range::Index => 0,
        Range::Constant32 => 1 << 31,
        Range::Constant64 => 1 << 63,
    }
}

fn value_of(digits: &[u8]) -> Value
    ensures { IsValue digits.now result }
{
    if !are_digits(digits) {
        return Value::NoDigits;
    }
    let mut value: u64 = 0;
    for digit in digits {
        let Some(more) = appended(value, *digit) else {
            return Value::Large;
        };
        value = more;
    }
    Value::Of(value)
}

/// The value of one digit more.
fn appended(value: u64, digit: u8) -> Option<u64>
    ensures { MatchOption result (2 ^ 64 ≤ 10 * value + (digit - 48)) (λ n. n ≡ 10 * value + (digit - 48)) }
{
    value
        .checked_mul(10)?
        .checked_add(digit.saturating_sub(b'0') as u64)
}

fn are_digits(word: &[u8]) -> bool
    ensures { result ≡ are_digits word.now }
{
    match word {
        [] => false,
        [digit] => digit.is_ascii_digit(),
        [first, ..] => *first != b'0' && has_digits(word),
    }
}

fn has_digits(word: &[u8]) -> bool
    ensures { result ≡ list_all is_ascii_digit word.now }
{
    word.iter().all(|byte| byte.is_ascii_digit())
}
