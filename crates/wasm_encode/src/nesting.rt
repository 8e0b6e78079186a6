ghost use Rattle.std.specs.Prelude.{◌+◌, ◌≤◌, ◌↔◌, IsTrue, All};
ghost use Rattle.wasm_grammar.specs.Nesting.{NestsAtMost, ModuleNestsAtMost, greatest, nesting};

use wasm_ast::{ImmediateRef, WInstr, WModule};

/// Whether each body and constant expression of a module has at most so many blocks, loops and ifs open at
/// once (this project's own): for 1,000 the test of what `encode` requires. It calls itself at most
/// `most` deep.
pub fn nests_at_most(m: &WModule, most: u32) -> bool
    ensures { IsTrue result ↔ ModuleNestsAtMost most m.now }
{
    let codes = m
        .codes
        .as_slice()
        .iter()
        .all(|code| list_nests(code.body.as_slice(), most));
    let globals = m
        .globals
        .as_slice()
        .iter()
        .all(|global| instruction_nests(&global.init, most));
    let elements = m
        .elements
        .as_slice()
        .iter()
        .all(|segment| instruction_nests(&segment.offset, most));
    let segments = m
        .segments
        .as_slice()
        .iter()
        .all(|segment| instruction_nests(&segment.offset, most));
    codes && globals && elements && segments
}

#[cycle(nesting)]
fn instruction_nests(instruction: &WInstr, most: u32) -> bool
    ensures { IsTrue result ↔ (nesting instruction.now ≤ most) }
{
    match instruction.immediate() {
        ImmediateRef::Body(_, body) => block_nests(body, most),
        ImmediateRef::Bodies(_, first, second) => block_nests(first, most)
            && block_nests(second, most),
        _ => true,
    }
}

/// Whether a block with this body nests at most so deep, itself counted.
#[cycle(nesting)]
fn block_nests(body: &[WInstr], most: u32) -> bool
    ensures { IsTrue result ↔ (1 + greatest nesting body.now ≤ most) }
{
    most > 0 && list_nests(body, most - 1)
}

#[cycle(nesting)]
fn list_nests(body: &[WInstr], most: u32) -> bool
    ensures { IsTrue result ↔ NestsAtMost most body.now }
{
    for instruction in body {
        if !instruction_nests(instruction, most) {
            return false;
        }
    }
    true
}
