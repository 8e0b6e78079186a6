// The codes of functions: the rows of the lowering table, one after another.
ghost use Rattle.std.specs.Prelude.{◌≡◌, ◌≤◌, ◌<◌, ◌+◌, ◌^◌, [], ◌∷◌, ◌++◌, OnOk, IfOk};
ghost use Rattle.rw_types.specs.LoneMain.{IsPlain, ArePlain};
ghost use Rattle.lowering_table.specs.Allocators.{unreachable_code};
ghost use Rattle.lowering_table.specs.Frames.{height_of, room_of};
ghost use Rattle.lowering_table.specs.Codes.{code_of};
ghost use Rattle.lowering_table.specs.Rows.{row, rows, gives};
ghost use Rattle.lower.specs.Heights.{IsWithin, AreWithin};

use crate::LowerError;
use rich_typing::Note;
use rw_types::{Instr, NumName};
use std::alloc::Global;
use wasm_ast::{Code, List, LocalRun, ValTy, WInstr};

// The most words that stand before an instruction of a body of at most 1,000.
const MAX_HEIGHT: u64 = 1_000;

/// The code of a function with one run of 64-bit locals.
pub fn code(alloc: Global, locals: u32, body: List<WInstr>) -> Result<Code, LowerError>
    ensures { IfOk result (λ code. code ≡ code_of locals body) }
{
    let run = LocalRun {
        count: locals,
        ty: ValTy::I64,
    };
    Ok(Code {
        locals: List::from_slice(alloc, &[run])?,
        body,
    })
}

/// The code of a function that is never called.
pub fn unreachable(alloc: Global) -> Result<Code, LowerError>
    ensures { IfOk result (λ code. code ≡ unreachable_code) }
{
    let mut body = List::new(alloc);
    body.push(WInstr::Unreachable)?;
    Ok(Code {
        locals: List::new(alloc),
        body,
    })
}

/// The greatest height of a body with these notes, and this height at its end.
pub fn room(body: &[Instr], notes: &[Note], end: u64) -> u64
    requires plain { ArePlain body.now }
    requires within { AreWithin 1000 notes.now }
    requires end { end ≤ 1000 }
    ensures room { result ≡ room_of body.now notes.now end }
    ensures bound { result ≤ 1000 }
{
    let mut most = end;
    for (at, instr) in body.iter().enumerate() {
        let Some(note) = notes.get(at) else {
            break;
        };
        most = most.max(height(instr, note));
    }
    most
}

// How many words stand before a plain instruction; no more stand while it is executed.
fn height(_instr: &Instr, note: &Note) -> u64
    requires plain { IsPlain _instr.now }
    requires within { IsWithin 1000 note.now }
    ensures height { result ≡ height_of _instr.now note.now }
    ensures bound { result ≤ 1000 }
{
    note.beneath + note.taken.len() as u64
}

/// Adds the code of a list, each instruction with its note, where `first` is the local of the first operand word.
pub fn push_rows(
    out: &mut List<WInstr>,
    first: u32,
    body: &[Instr],
    notes: &[Note],
) -> Result<(), LowerError>
    requires plain { ArePlain body.now }
    requires within { AreWithin 1000 notes.now }
    requires first { first ≤ 10000 }
    ensures { OnOk result (out.new ≡ out.old ++ rows first body.now notes.now) }
{
    for (at, instr) in body.iter().enumerate() {
        let Some(note) = notes.get(at) else {
            break;
        };
        push_row(out, first, instr, note)?;
    }
    Ok(())
}

// Adds the code of one instruction.
fn push_row(
    out: &mut List<WInstr>,
    first: u32,
    instr: &Instr,
    note: &Note,
) -> Result<(), LowerError>
    requires plain { IsPlain instr.now }
    requires within { IsWithin 1000 note.now }
    requires first { first ≤ 10000 }
    ensures { OnOk result (out.new ≡ out.old ++ row first instr.now note.now) }
{
    let top = first + note.beneath as u32;
    match instr {
        Instr::I64Const(n) => {
            out.push(WInstr::I64Const(*n))?;
            out.push(WInstr::LocalSet(top))?;
        }
        Instr::Num(NumName::I64Add) => {
            out.push(WInstr::LocalGet(top))?;
            out.push(WInstr::LocalGet(top + 1))?;
            out.push(WInstr::I64Add)?;
            out.push(WInstr::LocalSet(top))?;
        }
        Instr::Print => {
            out.push(WInstr::LocalGet(top))?;
            out.push(WInstr::Call(0))?;
        }
        Instr::Drop => out.push(WInstr::Nop)?,
        _ => unreachable!(),
    }
    Ok(())
}
