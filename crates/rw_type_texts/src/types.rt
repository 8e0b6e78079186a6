#![tactic(auto, using(rich_writing::proofs::Types::type_forms))]

ghost use Rattle.std.specs.Prelude.{◌≡◌, ◌≤◌, ◌++◌, ◌∷◌, [], OnOk, codes, decimal, drop, length, map};
ghost use Rattle.rich_writing.specs.Pieces.{in_parentheses, mem_text, priv_text, qual_text, spaced};
ghost use Rattle.rich_writing.specs.Types.{function_type_text, heap_text, pretype_text, slot_text, type_text};

use crate::arguments::{push_indexed, push_kind, push_right};
use crate::lists::push_list;
use rw_text_pieces::{mem_word, push_number, qual_word};
use rw_types::{FunType, Heap, Mem, Pre, Priv, Qual, Slot, Ty};
use std::alloc::AllocError;

/// Appends the canonical text of a type; this project's own. `AllocError` where memory is wanting. It calls itself as deep
/// as the type nests.
#[cycle(texts)]
pub fn push_type(out: &mut Vec<u8>, t: &Ty) -> Result<(), AllocError>
    ensures { OnOk result (out.new.items ≡ out.old.items ++ type_text t.now) }
{
    match t {
        Ty::Of(qual, pretype) => push_qualified(out, *qual, pretype),
        Ty::Var(n) => push_indexed(out, b"var", *n),
        Ty::Rec(qual, size, body) => push_bound(out, b"rec", *qual, *size, body.get()),
    }
}

#[cycle(texts)]
fn push_qualified(out: &mut Vec<u8>, qual: Qual, pretype: &Pre) -> Result<(), AllocError>
    ensures { OnOk result (out.new.items ≡ out.old.items ++ in_parentheses (qual_text qual ∷ pretype_text pretype.now ∷ [])) }
{
    out.push(b'(')?;
    out.extend_from_slice(qual_word(qual))?;
    out.push(b' ')?;
    push_pretype(out, pretype)?;
    out.push(b')')?;
    Ok(())
}

#[cycle(texts)]
fn push_bound(
    out: &mut Vec<u8>,
    word: &[u8],
    qual: Qual,
    size: u32,
    body: &Ty,
) -> Result<(), AllocError>
    ensures { OnOk result (out.new.items ≡ out.old.items ++ in_parentheses (word.now ∷ qual_text qual ∷ decimal size ∷ type_text body.now ∷ [])) }
{
    push_kind(out, word, qual, size)?;
    push_type(out, body)?;
    out.push(b')')?;
    Ok(())
}

#[cycle(texts)]
fn push_pretype(out: &mut Vec<u8>, pretype: &Pre) -> Result<(), AllocError>
    ensures { OnOk result (out.new.items ≡ out.old.items ++ pretype_text pretype.now) }
{
    match pretype {
        Pre::Unit => out.extend_from_slice(b"unit"),
        Pre::I32 => out.extend_from_slice(b"i32"),
        Pre::I64 => out.extend_from_slice(b"i64"),
        Pre::Tuple(parts) => push_headed_types(out, b"tuple", parts.as_slice()),
        Pre::Ref(privilege, location, heap) => {
            push_located(out, b"ref", *privilege, *location, heap)
        }
        Pre::Ptr(location) => push_indexed(out, b"ptr", *location),
        Pre::Cap(privilege, location, heap) => {
            push_located(out, b"cap", *privilege, *location, heap)
        }
        Pre::Own(location) => push_indexed(out, b"own", *location),
        Pre::Hidden(memory, body) => push_hidden(out, *memory, body.get()),
        Pre::Code(function) => push_code(out, function.get()),
    }
}

#[cycle(texts)]
fn push_located(
    out: &mut Vec<u8>,
    word: &[u8],
    privilege: Priv,
    location: u32,
    heap: &Heap,
) -> Result<(), AllocError>
    ensures { OnOk result (out.new.items ≡ out.old.items ++ in_parentheses (word.now ∷ priv_text privilege ∷ decimal location ∷ heap_text heap.now ∷ [])) }
{
    push_right(out, word, privilege, location)?;
    push_heap(out, heap)?;
    out.push(b')')?;
    Ok(())
}

#[cycle(texts)]
fn push_hidden(out: &mut Vec<u8>, memory: Mem, body: &Ty) -> Result<(), AllocError>
    ensures { OnOk result (out.new.items ≡ out.old.items ++ in_parentheses (codes "some" ∷ mem_text memory ∷ type_text body.now ∷ [])) }
{
    out.extend_from_slice(b"(some ")?;
    out.extend_from_slice(mem_word(memory))?;
    out.push(b' ')?;
    push_type(out, body)?;
    out.push(b')')?;
    Ok(())
}

#[cycle(texts)]
fn push_code(out: &mut Vec<u8>, function: &FunType) -> Result<(), AllocError>
    ensures { OnOk result (out.new.items ≡ out.old.items ++ in_parentheses (codes "code" ∷ function_type_text function.now ∷ [])) }
{
    out.extend_from_slice(b"(code ")?;
    push_function_type(out, function)?;
    out.push(b')')?;
    Ok(())
}

/// Appends the canonical text of a function type; this project's own. `AllocError` where memory is wanting. It calls itself
/// as deep as the type nests.
#[cycle(texts)]
pub fn push_function_type(out: &mut Vec<u8>, function: &FunType) -> Result<(), AllocError>
    ensures { OnOk result (out.new.items ≡ out.old.items ++ function_type_text function.now) }
{
    out.extend_from_slice(b"(fun ")?;
    push_list(out, function.binders.as_slice())?;
    out.push(b' ')?;
    push_types(out, function.params.as_slice())?;
    out.push(b' ')?;
    push_types(out, function.results.as_slice())?;
    out.push(b')')?;
    Ok(())
}

#[cycle(texts)]
fn push_heap(out: &mut Vec<u8>, heap: &Heap) -> Result<(), AllocError>
    ensures { OnOk result (out.new.items ≡ out.old.items ++ heap_text heap.now) }
{
    match heap {
        Heap::Struct(slots) => push_struct(out, slots.as_slice()),
        Heap::Variant(cases) => push_headed_types(out, b"variant", cases.as_slice()),
        Heap::Array(element) => push_array(out, element.get()),
        Heap::Exist(qual, size, body) => push_bound(out, b"exist", *qual, *size, body.get()),
    }
}

#[cycle(texts)]
fn push_array(out: &mut Vec<u8>, element: &Ty) -> Result<(), AllocError>
    ensures { OnOk result (out.new.items ≡ out.old.items ++ in_parentheses (codes "array" ∷ type_text element.now ∷ [])) }
{
    out.extend_from_slice(b"(array ")?;
    push_type(out, element)?;
    out.push(b')')?;
    Ok(())
}

#[cycle(texts)]
fn push_struct(out: &mut Vec<u8>, slots: &[Slot]) -> Result<(), AllocError>
    ensures { OnOk result (out.new.items ≡ out.old.items ++ in_parentheses (codes "struct" ∷ map slot_text slots.now)) }
{
    out.extend_from_slice(b"(struct")?;
    for slot in slots {
        push_slot(out, slot)?;
    }
    out.push(b')')?;
    Ok(())
}

#[cycle(texts)]
fn push_slot(out: &mut Vec<u8>, slot: &Slot) -> Result<(), AllocError>
    ensures { OnOk result (out.new.items ≡ out.old.items ++ (codes " " ++ slot_text slot.now)) }
{
    out.extend_from_slice(b" (")?;
    push_type(out, &slot.ty)?;
    out.push(b' ')?;
    push_number(out, slot.size)?;
    out.push(b')')?;
    Ok(())
}

#[cycle(texts)]
fn push_headed_types(out: &mut Vec<u8>, word: &[u8], types: &[Ty]) -> Result<(), AllocError>
    ensures { OnOk result (out.new.items ≡ out.old.items ++ in_parentheses (word.now ∷ map type_text types.now)) }
{
    out.push(b'(')?;
    out.extend_from_slice(word)?;
    push_spaced_types(out, types, 0)?;
    out.push(b')')?;
    Ok(())
}

#[cycle(texts)]
fn push_types(out: &mut Vec<u8>, types: &[Ty]) -> Result<(), AllocError>
    ensures { OnOk result (out.new.items ≡ out.old.items ++ in_parentheses (map type_text types.now)) }
{
    out.push(b'(')?;
    if let Some((first, _)) = types.split_first() {
        push_type(out, first)?;
        push_spaced_types(out, types, 1)?;
    }
    out.push(b')')?;
    Ok(())
}

/// Appends the types from a number on, each behind a space.
#[cycle(texts)]
fn push_spaced_types(out: &mut Vec<u8>, types: &[Ty], from: usize) -> Result<(), AllocError>
    requires { from ≤ length types.now }
    ensures { OnOk result (out.new.items ≡ out.old.items ++ spaced (map type_text (drop from types.now))) }
{
    for index in from..types.len() {
        out.push(b' ')?;
        push_type(out, &types[index])?;
    }
    Ok(())
}
