// The lowered module of a linked program.
ghost use Rattle.std.specs.Prelude.{◌≡◌, [], ◌∷◌, ◌++◌, IfOk, OnOk};
ghost use Rattle.wasm_grammar.specs.Nesting.{ModuleNestsAtMost, nesting_limit};
ghost use Rattle.wasm_grammar.specs.Profile.{IsInProfile};
ghost use Rattle.machine_steps.specs.Agreement.{Alike};
ghost use Rattle.rich_reduction.specs.Starts.{rich};
ghost use Rattle.wasm_execution.specs.Behaviour.{wasm};
ghost use Rattle.rw_types.specs.LoneMain.{ArePlain};
ghost use Rattle.rw_program.specs.LonePrograms.{IsLoneProgram, lone_func, lone_program};
ghost use Rattle.lowering_table.specs.Allocators.{unreachable_code};
ghost use Rattle.lowering_table.specs.Codes.{low_function, main_code};
ghost use Rattle.lowering_table.specs.Modules.{ArePages, low_module};
ghost use Rattle.lower.specs.Heights.{AreWithin};
ghost use Rattle.lower.specs.Lone.{IsLoneFunc, lone_code, lone_codes, lone_module};

use crate::{LowerError, functions, parts};
use lowering_table::Pages;
use rich_typing::Note;
use rw_program::{Linked, LinkedFunc};
use rw_types::Instr;
use std::alloc::Global;
use wasm_ast::{Code, Limits, List, WInstr, WModule};

/// The WebAssembly module that a linked program is lowered to, with this memory: the module of the lowering table
/// (this project's own). Want of memory is its one answer beside it.
pub fn lower(alloc: Global, p: &Linked, pages: &Pages) -> Result<WModule, LowerError>
    requires { ArePages pages.now }
    ensures low { IfOk result (λ lowered. lowered ≡ low_module p.now pages.now) }
    ensures nests { IfOk result (ModuleNestsAtMost nesting_limit) }
    ensures profile { IfOk result IsInProfile }
    ensures behaves { IfOk result (λ lowered. Alike (λ n. rich p.now n) (λ m. wasm lowered m)) }
{
    let [func] = p.funcs().as_slice() else {
        unreachable!()
    };
    let mut lowered = WModule {
        types: List::new(alloc),
        imports: List::new(alloc),
        funcs: List::new(alloc),
        tables: List::new(alloc),
        memories: List::new(alloc),
        globals: List::new(alloc),
        exports: List::new(alloc),
        start: None,
        elements: List::new(alloc),
        codes: List::new(alloc),
        segments: List::new(alloc),
    };
    fill(alloc, &mut lowered, func, pages)?;
    Ok(lowered)
}

// Puts each section of the lowered module in the place of what stands there.
fn fill(
    alloc: Global,
    lowered: &mut WModule,
    func: &LinkedFunc,
    pages: &Pages,
) -> Result<(), LowerError>
    requires pages { ArePages pages.now }
    requires func { IsLoneFunc func.now }
    ensures { OnOk result (lowered.new ≡ lone_module func.now pages.now) }
{
    let table = Limits {
        min: 1,
        max: Some(1),
    };
    lowered.types = parts::types(alloc)?;
    lowered.imports = parts::imports(alloc)?;
    lowered.funcs = List::from_slice(alloc, &[1, 0, 1, 2, 3])?;
    lowered.tables = List::from_slice(alloc, &[table])?;
    lowered.memories = parts::memories(alloc, pages)?;
    lowered.globals = parts::globals(alloc, pages)?;
    lowered.exports = parts::exports(alloc)?;
    lowered.start = None;
    lowered.elements = parts::elements(alloc)?;
    lowered.codes = codes(alloc, func)?;
    lowered.segments = parts::segments(alloc, pages)?;
    Ok(())
}

// The codes: those of the allocators, of the linked function, and of the exported main.
fn codes(alloc: Global, func: &LinkedFunc) -> Result<List<Code>, LowerError>
    requires { IsLoneFunc func.now }
    ensures { IfOk result (λ codes. codes ≡ lone_codes func.now) }
{
    let mut codes = List::new(alloc);
    codes.push(functions::unreachable(alloc)?)?;
    codes.push(functions::unreachable(alloc)?)?;
    codes.push(functions::unreachable(alloc)?)?;
    codes.push(function(alloc, func)?)?;
    codes.push(main(alloc)?)?;
    Ok(codes)
}

// The code of the linked function.
fn function(alloc: Global, func: &LinkedFunc) -> Result<Code, LowerError>
    requires { IsLoneFunc func.now }
    ensures { IfOk result (λ code. code ≡ low_function func.now) }
{
    let body = func.body.as_slice();
    let notes = func.notes.as_slice();
    lone_function(alloc, body, notes)
}

// The code of a function of plain instructions: its list, and its result word goes to the result global.
fn lone_function(alloc: Global, body: &[Instr], notes: &[Note]) -> Result<Code, LowerError>
    requires plain { ArePlain body.now }
    requires within { AreWithin 1000 notes.now }
    ensures { IfOk result (λ code. code ≡ lone_code body.now notes.now) }
{
    let mut code = List::new(alloc);
    functions::push_rows(&mut code, 0, body, notes)?;
    code.push(WInstr::LocalGet(0))?;
    code.push(WInstr::GlobalSet(2))?;
    functions::code(alloc, functions::room(body, notes, 1) as u32 + 2, code)
}

// The code of the exported main: it calls the linked function, and gets its result.
fn main(alloc: Global) -> Result<Code, LowerError>
    ensures { IfOk result (λ code. code ≡ main_code (lone_program [] [])) }
{
    let mut body = List::new(alloc);
    body.push(WInstr::Call(4))?;
    body.push(WInstr::GlobalGet(2))?;
    functions::code(alloc, 2, body)
}
