//! The program that well-typed files link to is sound, where the constants in their bodies are within the widths of their types.
#![tactic(auto)]

ghost use Rattle.rich_linking_sound.specs.Laws.{LinkedSound};

/// A law: the program that well-typed files link to is sound where their constants fit: its bodies have derivations, the types of its
/// functions and globals break no rule, and its constants are within the widths of their types.
pub fn linked_programs_are_sound()
    ensures { LinkedSound }
{}
