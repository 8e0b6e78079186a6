ghost use Rattle.std.specs.Prelude.{◌≡◌, ◌↔◌, ◌≤◌, [], ◌∷◌, length, codes, IsTrue, MatchOption};
ghost use Rattle.rw_types.specs.LoneMain.{IsPlain, ArePlain, IsLoneMain, main_type};

use rw_types::{ExportDef, FunType, FuncDef, Instr, Module, NumName, Pre, Qual, Ty};

/// The most instructions that a body can have so far.
const MOST_INSTRS: usize = 1000;

/// The function of a module that is checked so far: one without parameters, locals and nested lists
/// that is exported as `main`.
pub fn lone_func(m: &Module) -> Option<&FuncDef>
    ensures { MatchOption result (IsLoneMain m.now → ⊥) (λ func. IsLoneMain m.now × (m.now.funcs ≡ func.now ∷ [])) }
{
    match m.funcs.as_slice() {
        [func] if is_lone_func(func) && stands_alone(m) => Some(func),
        _ => None,
    }
}

fn stands_alone(m: &Module) -> bool
    ensures { IsTrue result ↔ ((m.now.imports ≡ []) × (m.now.globals ≡ []) × (m.now.exports ≡ record { name = codes "main"; func = 0 } ∷ [])) }
{
    m.imports.is_empty() && m.globals.is_empty() && exports_main(m.exports.as_slice())
}

fn exports_main(exports: &[ExportDef]) -> bool
    ensures { IsTrue result ↔ (exports.now ≡ record { name = codes "main"; func = 0 } ∷ []) }
{
    match exports {
        [export] => is_main(export),
        _ => false,
    }
}

fn is_main(export: &ExportDef) -> bool
    ensures { IsTrue result ↔ (export.now ≡ record { name = codes "main"; func = 0 }) }
{
    export.func == 0 && export.name.as_slice() == b"main".as_slice()
}

fn is_lone_func(func: &FuncDef) -> bool
    ensures { IsTrue result ↔ ((func.now.ty ≡ main_type) × (func.now.locals ≡ []) × ArePlain func.now.body × (length func.now.body ≤ 1000)) }
{
    is_main_type(&func.ty)
        && func.locals.is_empty()
        && func.body.len() <= MOST_INSTRS
        && are_plain(func.body.as_slice())
}

fn is_main_type(ty: &FunType) -> bool
    ensures { IsTrue result ↔ (ty.now ≡ main_type) }
{
    ty.binders.is_empty() && ty.params.is_empty() && is_one_number(ty.results.as_slice())
}

fn is_one_number(types: &[Ty]) -> bool
    ensures { IsTrue result ↔ (types.now ≡ Ty.Of Qual.Unr Pre.I64 ∷ []) }
{
    matches!(types, [Ty::Of(Qual::Unr, Pre::I64)])
}

fn are_plain(body: &[Instr]) -> bool
    ensures { IsTrue result ↔ ArePlain body.now }
{
    for instr in body {
        if !is_plain(instr) {
            return false;
        }
    }
    true
}

fn is_plain(instr: &Instr) -> bool
    ensures { IsTrue result ↔ IsPlain instr.now }
{
    match instr {
        Instr::I64Const(bits) => {
            let _in_range = *bits;
            true
        }
        Instr::Num(NumName::I64Add) | Instr::Print | Instr::Drop => true,
        _ => false,
    }
}
