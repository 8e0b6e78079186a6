ghost use Rattle.std.specs.Prelude.{◌≡◌, ◌==◌, List, None, Some, length};
ghost use Rattle.rw_types.specs.declared.types.Binder.{Binder as Named};
ghost use Rattle.rw_types.specs.declared.types.Binder.TheVariants.{Kind, Loc};
ghost use Rattle.rw_types.specs.declared.types.Ty.{Ty as Tree};
ghost use Rattle.rich_types.specs.Scopes.{scope_of};
ghost use Rattle.rich_typing.specs.declared.rules.Rule.TheVariants.{Arms, Privilege};
ghost use Rattle.rich_rules.specs.Forms.{is_rw};
ghost use Rattle.rich_rules.specs.Points.{Outcome};
ghost use Rattle.rich_rules.specs.Takers.{hidden_form, need, package_form, variant_form};
ghost use Rattle.rw_block_rows.specs.Entries.{Takes};
ghost use Rattle.rw_unpack_rows.specs.Hiding.{SeesHidden, SeesPackage};

use rich_typing::Rule;
use rw_copy::{copy, copy_types};
use rw_quals_sizes::Ctx;
use rw_row_answers::{CapError, bare, broken, memory_of};
use rw_types::{Binder, Heap, List, Mem, Pre, Priv, Qual, Ty};
use std::alloc::Global;

/// What an operand hides: its binder, and the type below that.
#[derive(Drop)]
pub struct Hidden {
    pub binder: Binder,
    pub body: Ty,
}

/// A type with a hidden location: its qualifier, the memory, and the type below the binder; this project's own.
#[derive(Clone, Copy)]
pub struct HiddenRef<'a> {
    pub qual: Qual,
    pub memory: Mem,
    pub body: &'a Ty,
}

/// A reference to a package, whose location has a binder; this project's own.
#[derive(Clone, Copy)]
pub struct PackageRef<'a> {
    pub reference: Qual,
    pub privilege: Priv,
    pub location: u32,
    pub memory: Mem,
    pub qual: Qual,
    pub size: u32,
    pub body: &'a Ty,
}

/// The type with a hidden location that a type is, if it is one.
fn hidden_of<'a>(t: &'a Ty) -> Option<HiddenRef<'a>>
    ensures { SeesHidden t.now result }
{
    let Ty::Of(qual, Pre::Hidden(memory, body)) = t else {
        return None;
    };
    Some(HiddenRef {
        qual: *qual,
        memory: *memory,
        body: body.get(),
    })
}

/// The reference to a package that a type is, if it is one.
fn package_of<'a>(c: &Ctx, t: &'a Ty) -> Option<PackageRef<'a>>
    ensures { SeesPackage (scope_of c.now.binders) t.now result }
{
    let Ty::Of(reference, Pre::Ref(privilege, location, Heap::Exist(qual, size, body))) = t else {
        return None;
    };
    let memory = memory_of(c, *location)?;
    Some(PackageRef {
        reference: *reference,
        privilege: *privilege,
        location: *location,
        memory,
        qual: *qual,
        size: *size,
        body: body.get(),
    })
}

/// Whether a privilege is to read and write.
fn is_rw(privilege: Priv) -> bool
    ensures { result ≡ is_rw privilege }
{
    match privilege {
        Priv::Rw => true,
        Priv::R => false,
    }
}

/// What a hidden location hides.
pub fn look_hidden(alloc: Global, top: &Ty) -> Result<Hidden, CapError>
    ensures { (rest : Named → Tree → Outcome) → Takes result (hidden_form top.now (λ m t. rest (Loc m) t)) (λ hidden. rest hidden.binder hidden.body) }
{
    let Some(hidden) = hidden_of(top) else {
        return Err(broken(alloc, Rule::OperandType, top));
    };
    let body = copy(alloc, hidden.body)?;
    Ok(Hidden {
        binder: Binder::Loc(hidden.memory),
        body,
    })
}

/// What the package hides that a reference to read and write is to.
pub fn look_package(alloc: Global, c: &Ctx, top: &Ty) -> Result<Hidden, CapError>
    ensures { (rest : Named → Tree → Outcome) → Takes result (package_form (scope_of c.now.binders) top.now (λ r q s t. need (is_rw r.privilege) Privilege (Some top.now) None (rest (Kind q s) t))) (λ hidden. rest hidden.binder hidden.body) }
{
    let Some(package) = package_of(c, top) else {
        return Err(broken(alloc, Rule::OperandType, top));
    };
    if !is_rw(package.privilege) {
        return Err(broken(alloc, Rule::Privilege, top));
    }
    let body = copy(alloc, package.body)?;
    Ok(Hidden {
        binder: Binder::Kind(package.qual, package.size),
        body,
    })
}

#[tactic(auto, using(crate::proofs::Seen::variant_seen))]
/// The types of the cases of the variant that a reference to read and write is to, one for each of so many lists.
pub fn look_cases(alloc: Global, c: &Ctx, lists: usize, top: &Ty) -> Result<List<Ty>, CapError>
    ensures { (rest : List Tree → Outcome) → Takes result (variant_form (scope_of c.now.binders) top.now (λ r ts. need (is_rw r.privilege) Privilege (Some top.now) None (need (lists == length ts) Arms None None (rest ts)))) rest }
{
    let Ty::Of(_, Pre::Ref(privilege, location, Heap::Variant(cases))) = top else {
        return Err(broken(alloc, Rule::OperandType, top));
    };
    if memory_of(c, *location).is_none() {
        return Err(broken(alloc, Rule::OperandType, top));
    }
    if *privilege == Priv::R {
        return Err(broken(alloc, Rule::Privilege, top));
    }
    if lists != cases.len() {
        return Err(bare(Rule::Arms));
    }
    Ok(copy_types(alloc, cases.as_slice())?)
}
