ghost use Rattle.std.specs.Prelude.{◌≡◌};

use rich_typing::Note;
use rw_types::{FunType, Instr, List, Ty};
use std::marker::Model;

/// A function of a linked program: the number of the file that it came from, its type, the sizes in
/// words of the slots of its declared locals, its body with the numbers of the linked program, and the
/// notes of the body; this project's own.
#[derive(Drop)]
pub struct LinkedFunc {
    pub file: u32,
    pub ty: FunType,
    pub locals: List<u32>,
    pub body: List<Instr>,
    pub notes: List<Note>,
}

/// A global of a linked program: the number of the file that it came from, whether it can be set, its
/// type, the instructions that give its first value, and the notes of these; this project's own.
#[derive(Drop)]
pub struct LinkedGlobal {
    pub file: u32,
    pub mutable: bool,
    pub ty: Ty,
    pub body: List<Instr>,
    pub notes: List<Note>,
}

/// A linked program: the functions and the globals of its files in their order, and the number of its
/// main function. Contracts see the three; this project's own.
#[derive(Drop)]
pub struct Linked {
    funcs: List<LinkedFunc>,
    globals: List<LinkedGlobal>,
    main: u32,
}

impl Model for Linked {
    ghost use Rattle.rw_program.specs.Programs.{Program};
    ghost use Rattle.rw_program.specs.LonePrograms.{IsLoneProgram};
    ghost use Rattle.std.specs.Coded.{codes};
    ghost use Rattle.rw_types.specs.contracts.instrs.Instr as instr;
    ghost use Rattle.rw_types.specs.contracts.types.Ty as ty;

    ghost Value = { Program };

    ghost coded = { Prim.hlevel (codes, instr.the_row.coded, ty.the_row.coded) };

    ghost view = { λ l. record { funcs = l.funcs; globals = l.globals; main = l.main } };

    ghost invariant = { λ l. IsLoneProgram (record { funcs = l.funcs; globals = l.globals; main = l.main }) };
}

impl Linked {
    ghost use Rattle.rw_program.specs.LonePrograms.{IsLoneProgram};

    /// The program of these functions and globals, with this main function.
    pub fn new(funcs: List<LinkedFunc>, globals: List<LinkedGlobal>, main: u32) -> Linked
        requires { IsLoneProgram (record { funcs = funcs; globals = globals; main = main }) }
        ensures { result ≡ record { funcs = funcs; globals = globals; main = main } }
    {
        Linked {
            funcs,
            globals,
            main,
        }
    }

    /// The functions, in the order of their numbers.
    pub fn funcs(&self) -> &List<LinkedFunc>
        ensures value { result.now ≡ self.now.funcs }
        ensures form { IsLoneProgram self.now }
    {
        &self.funcs
    }

    /// The globals, in the order of their numbers.
    pub fn globals(&self) -> &List<LinkedGlobal>
        ensures { result.now ≡ self.now.globals }
    {
        &self.globals
    }

    /// The number of the main function.
    pub fn main(&self) -> u32
        ensures { result ≡ self.now.main }
    {
        self.main
    }
}
