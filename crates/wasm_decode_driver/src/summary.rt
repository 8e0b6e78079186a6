// What is told of a module that was read.
ghost use Rattle.std.specs.Prelude.{◌<◌, ◌^◌, length};
ghost use Rattle.wasm_grammar.specs.Profile.{IsInProfile};

use std::alloc::Global;
use std::fmt::{self, Display, Formatter, Write};
use wasm_ast::WModule;
use wasm_codec::{is_canonical, round_trip};
use wasm_copy::{copy, same};

/// The names of the counts of a module: those before the start function, and those behind it.
const FIRST: [&str; 7] = [
    "types",
    "imports",
    "functions",
    "tables",
    "memories",
    "globals",
    "exports",
];

const LAST: [&str; 2] = ["elements", "segments"];

/// The counts of a module, and what becomes of it when it is written, copied and read back.
#[derive(Drop)]
pub struct Summary {
    first: [usize; 7],
    starts: bool,
    last: [usize; 2],
    canonical: bool,
    copied: bool,
    returned: bool,
}

impl Display for Summary {
    fn fmt<W: Write>(&self, f: &mut Formatter<W>) -> fmt::Result {
        for (name, count) in FIRST.iter().zip(&self.first) {
            write!(f, "{name} {count} ")?;
        }
        write!(f, "start {} ", word_of(self.starts))?;
        for (name, count) in LAST.iter().zip(&self.last) {
            write!(f, "{name} {count} ")?;
        }
        write!(f, "canonical {} ", word_of(self.canonical))?;
        write!(f, "copied {} ", word_of(self.copied))?;
        write!(f, "returned {}", word_of(self.returned))
    }
}

/// `yes` or `no`.
pub fn word_of(is: bool) -> &'static str {
    if is { "yes" } else { "no" }
}

/// The summary of a module that was read from this input.
pub fn summary_of(alloc: Global, input: &[u8], m: &WModule) -> Summary
    requires short { length input.now < 2 ^ 32 }
    requires profile { IsInProfile m.now }
{
    Summary {
        first: [
            m.types.len(),
            m.imports.len(),
            m.funcs.len(),
            m.tables.len(),
            m.memories.len(),
            m.globals.len(),
            m.exports.len(),
        ],
        starts: m.start.is_some(),
        last: [m.elements.len(), m.segments.len()],
        canonical: is_canonical(alloc, input, m) == Ok(true),
        copied: is_copied(alloc, m),
        returned: comes_back(alloc, m),
    }
}

/// Whether a copy of the module is the same.
fn is_copied(alloc: Global, m: &WModule) -> bool {
    match copy(alloc, m) {
        Ok(copied) => same(&copied, m),
        Err(_) => false,
    }
}

/// Whether the module comes back from its canonical bytes.
fn comes_back(alloc: Global, m: &WModule) -> bool
    requires { IsInProfile m.now }
{
    match round_trip(alloc, m) {
        Ok(decoded) => same(decoded.module(), m),
        Err(_) => false,
    }
}
