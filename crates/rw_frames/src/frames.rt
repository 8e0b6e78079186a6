ghost use Rattle.std.specs.Prelude.{◌≡◌, slice_get};
ghost use Rattle.std.specs.Option.{option_copied};
ghost use Rattle.rw_frames.specs.Frames.{frame_seen, found_global};

use rw_types::{FunType, FuncDef, GlobalDef, ImportDef};

/// Whose body it is: that of a function, or the one that gives the global of this number its first value; this project's own.
#[derive(Clone, Copy)]
pub enum Owner {
    OfFunction,
    OfGlobal(u32),
}

/// What does not change in a body: the imports, functions and globals of its module, the sizes in words of the slots of its
/// locals, and whose body it is; this project's own.
#[derive(Clone, Copy)]
pub struct Frame<'a> {
    pub imports: &'a [ImportDef],
    pub funcs: &'a [FuncDef],
    pub globals: &'a [GlobalDef],
    pub slots: &'a [u32],
    pub owner: Owner,
}

/// The type of the function with this number, if there is one; the imports come first.
#[tactic(auto, using(crate::proofs::Found::among_imports, crate::proofs::Found::among_functions, crate::proofs::Found::no_function))]
pub fn function_of<'a>(f: &Frame<'a>, n: u32) -> Option<&'a FunType>
    ensures { option_copied result ≡ slice_get (frame_seen f.now).functions n }
{
    let n = n as usize;
    if n < f.imports.len() {
        return Some(&f.imports[n].ty);
    }
    let func = f.funcs.get(n - f.imports.len())?;
    Some(&func.ty)
}

/// The global with this number, if there is one.
#[tactic(auto, using(crate::proofs::Found::found_mapped))]
pub fn global_of<'a>(f: &Frame<'a>, n: u32) -> Option<&'a GlobalDef>
    ensures { found_global (option_copied result) ≡ slice_get (frame_seen f.now).globals n }
{
    f.globals.get(n as usize)
}
