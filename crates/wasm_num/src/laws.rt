//! Laws of the operators, and rows that are computed.

ghost use Rattle.wasm_num.specs.Laws.{StaysWithin, DividesSigned, DividesUnsigned, TurnsBack, StandsAroundOnes, ActsDigitByDigit, ExtensionKeeps};
ghost use Rattle.wasm_num.specs.Rows.{ArithmeticRows, DigitRows, CountRows, TestRows};

/// Laws: every answer is an integer of its width; quotient and remainder are those of whole numbers, truncated towards
/// zero; a rotation is undone by the one back; counts of zeros stand around the ones of a number; `and`, `or` and `xor`
/// act digit by digit; an extension by the sign keeps the signed reading.
pub fn numbers_obey()
    ensures within { StaysWithin }
    ensures signed { DividesSigned }
    ensures unsigned { DividesUnsigned }
    ensures turns { TurnsBack }
    ensures places { StandsAroundOnes }
    ensures digits { ActsDigitByDigit }
    ensures extension { ExtensionKeeps }
{}

/// Rows: answers at the ends of each range.
pub fn numbers_compute()
    ensures arithmetic { ArithmeticRows }
    ensures digits { DigitRows }
    ensures counts { CountRows }
    ensures tests { TestRows }
{}
