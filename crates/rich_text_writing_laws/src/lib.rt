//! Laws of writing Rich modules, over the definitions of `rich_text`: every module that a text spells can be written.
#![tactic(auto)]

ghost use Rattle.rich_text_writing_laws.specs.Laws.{ReadAgain, SpelledIsWritable};

/// A law: every module that a text spells can be written; so what is read from a text is read again from its canonical text.
pub fn what_is_spelled_can_be_written()
    ensures writable { SpelledIsWritable }
    ensures again { ReadAgain }
{}
