//! The lowered module of a linked program of the whole language: types by first use, functions, table, memory, globals, exports,
//! codes and segments. Its laws: it is valid, but for cells, and what a call through a type gives has result globals.
#![tactic(auto)]

ghost use Rattle.lowering_modules.specs.Laws.{CallsAreListed, LowModuleIsValid};

/// A law, of programs without cells: the lowered module of a typed program is valid, with any codes of the allocators that are typed.
pub fn modules_are_valid()
    ensures { LowModuleIsValid }
{}

/// A law: of each call through a type in the body of a function the type is listed in the lowered module, and there are result globals for
/// all words that it may give, also where no function of the program has such a type.
pub fn calls_are_listed()
    ensures { CallsAreListed }
{}
