//! The memory of a module that runs is made of bytes, so that the words of a memory tell its bytes.
//! Its definitions are `AreBytes` and what has such a memory: a configuration, a step's end, a module's segments.
//! Its laws: execution keeps it, a module whose segments are bytes starts so, and words determine bytes.
#![tactic(auto)]

ghost use Rattle.memory_bytes.specs.Laws.{StepKeepsBytes, StepsKeepBytes, StartsOverFirst, StartHasBytes, ModulesKeepBytes, WordsTellBytes};

/// A law: each step of any module, and so any number of them, leaves a memory of bytes where there was one; a module whose
/// segments are bytes starts with one, and has one after each number of steps.
pub fn memory_is_bytes()
    ensures step { StepKeepsBytes }
    ensures steps { StepsKeepBytes }
    ensures start { StartHasBytes }
    ensures run { ModulesKeepBytes }
{}

/// A law: a module that starts, starts over its first store.
pub fn starts_are_first()
    ensures { StartsOverFirst }
{}

/// A law: two memories of bytes, as long as so many words, with the same words are the same.
pub fn words_tell_bytes()
    ensures { WordsTellBytes }
{}
