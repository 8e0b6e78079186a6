//! Laws of the tokens of Rich texts: a text is divided into its longest pieces (blanks, comments and tokens), and the
//! definition that reads byte by byte gives exactly their tokens.
#![tactic(auto)]

ghost use Rattle.rich_text_token_laws.specs.Laws.{LexedAreTokens, NoOtherTokens};

/// A law: what is lexed of a text are the tokens of its longest pieces with their places, and what ends them; and there are no others.
pub fn lexed_are_the_tokens()
    ensures are { LexedAreTokens }
    ensures only { NoOtherTokens }
{}
