ghost use Rattle.std.specs.Prelude.{◌≡◌, ◌≤◌, [], ◌∷◌, ◌++◌, length, IfOk, OnOk, MatchResult, None};
ghost use Rattle.rw_types.specs.LoneMain.{IsPlain, ArePlain};
ghost use Rattle.rich_typing.specs.Derivations.{Derives};
ghost use Rattle.rich_typing.specs.Table.{takes, unr_i64, i64s};
ghost use Rattle.rw_check.specs.Counts.{gives};
ghost use Rattle.rw_check.specs.Answers.{TellsPlace, TellsBody};

use rw_program::{CheckError, Note, Place, Rule};
use rw_types::{Instr, List, NumName, Pre, Qual, Ty};
use std::alloc::{AllocError, Global};

/// The notes of the body of the first function, which is to give one number of 64 bits.
pub fn check_body(alloc: Global, body: &[Instr]) -> Result<List<Note>, CheckError>
    requires plain { ArePlain body.now }
    requires short { length body.now ≤ 1000 }
    ensures { MatchResult result (λ notes. Derives [] body.now [] notes (unr_i64 ∷ [])) (λ e. TellsBody e body.now) }
{
    let mut operands: u64 = 0;
    let mut notes = List::new(alloc);
    for (at, instr) in body.iter().enumerate() {
        let taken = taken_by(instr);
        if operands < taken {
            return Err(refused(alloc, at as u32, Rule::Operands));
        }
        operands -= taken;
        push_note(alloc, &mut notes, operands, taken)?;
        operands += given_by(instr);
    }
    if operands != 1 {
        return Err(refused(alloc, body.len() as u32, Rule::BlockEnd));
    }
    Ok(notes)
}

/// How many operands a plain instruction takes.
fn taken_by(instr: &Instr) -> u64
    requires { IsPlain instr.now }
    ensures { result ≡ takes instr.now }
{
    match instr {
        Instr::Num(NumName::I64Add) => 2,
        Instr::Print | Instr::Drop => 1,
        _ => 0,
    }
}

/// How many operands a plain instruction gives.
fn given_by(instr: &Instr) -> u64
    requires { IsPlain instr.now }
    ensures count { result ≡ gives instr.now }
    ensures few { result ≤ 1 }
{
    match instr {
        Instr::I64Const(_) | Instr::Num(NumName::I64Add) => 1,
        _ => 0,
    }
}

/// Puts a note at the end: of the point before an instruction that takes so many numbers of 64 bits,
/// where so many lie beneath them.
fn push_note(
    alloc: Global,
    notes: &mut List<Note>,
    beneath: u64,
    taken: u64,
) -> Result<(), AllocError>
    ensures { OnOk result (notes.new ≡ notes.old ++ record { binders = []; beneath = beneath; taken = i64s taken; local = None } ∷ []) }
{
    notes.push(Note {
        binders: List::new(alloc),
        beneath,
        taken: numbers(alloc, taken)?,
        local: None,
    })
}

/// So many types of a number of 64 bits.
fn numbers(alloc: Global, count: u64) -> Result<List<Ty>, AllocError>
    ensures { IfOk result (λ types. types ≡ i64s count) }
{
    let mut types = List::new(alloc);
    for _ in 0..count {
        types.push(Ty::Of(Qual::Unr, Pre::I64))?;
    }
    Ok(types)
}

fn refused(alloc: Global, at: u32, rule: Rule) -> CheckError
    ensures { TellsPlace result at rule }
{
    let mut path = List::new(alloc);
    match path.push(at) {
        Ok(()) => CheckError::Refused {
            place: Place::FuncAt(0, path),
            rule,
            found: None,
            expected: None,
        },
        Err(_) => CheckError::Memory,
    }
}
