ghost use Rattle.std.specs.Prelude.{IfOk, MatchResult, ◌<◌};
ghost use Rattle.rich_text.specs.Grammars.{a_number, done, index, many, one};
ghost use Rattle.rw_numbers.specs.NumberWords.{modulus_of, range_of};
ghost use Rattle.rw_parser.specs.Reads.{Fails, Gave, Reads, the_fields};

use rw_numbers::Range;
use rw_parser::{Parser, ReadError};
use rw_types::List;

/// The number of a range that a list holds alone, and its `)`.
pub fn only_number(parser: &mut Parser<'_>, range: Range) -> Result<u64, ReadError>
    requires { 0 < parser.old.left.depth }
    ensures reads { MatchResult result (λ n. Gave (the_fields (one (a_number (range_of range)) done)) 1 parser.old parser.new (n, tt)) (Fails (the_fields (one (a_number (range_of range)) done)) parser.old) }
    ensures below { IfOk result (λ n. n < modulus_of range) }
{
    let value = parser.number(range)?;
    parser.close()?;
    Ok(value)
}

/// Numbers without a sign, and the `)` behind them; this project's own. An error is the first fault, or want of memory.
pub fn read_indices(parser: &mut Parser<'_>) -> Result<List<u32>, ReadError>
    requires { 0 < parser.old.left.depth }
    ensures { Reads (the_fields (many index)) 1 parser.old parser.new result }
{
    let mut indices = List::new(parser.alloc());
    while !parser.closes() {
        indices.push(parser.index()?)?;
    }
    Ok(indices)
}
