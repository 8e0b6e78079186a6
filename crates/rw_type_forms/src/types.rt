ghost use Rattle.std.specs.Prelude.{MatchResult, ◌<◌};
ghost use Rattle.rich_text.specs.Forms.{function_type_form, heap_form, pretype_form, slot_form, type_form, types_form};
ghost use Rattle.rich_text.specs.Grammars.{a_form, many};
ghost use Rattle.rw_parser.specs.Reads.{Fails, Gave, Reads, a_part, the_fields};
ghost use Rattle.rw_type_forms.specs.Heads.{bound_fields, located_fields};

use crate::heads::{
    HeapHead, PretypeHead, PretypeStart, TypeHead, only_index, start_function_type, start_heap,
    start_pretype, start_type,
};
use rw_parser::{Parser, ReadError};
use rw_types::{FunType, Heap, List, Pre, Priv, Qual, Slot, Ty};
use sqlite_items::Boxed;

/// A type under the type variable that its form binds.
#[derive(Drop)]
struct Bound {
    qualifier: Qual,
    size: u32,
    body: Boxed<Ty>,
}

/// A location, what is allowed there, and what stands there.
#[derive(Drop)]
struct Located {
    privilege: Priv,
    location: u32,
    heap: Heap,
}

/// A type; this project's own. An error is the first fault, or want of memory.
#[cycle(types)]
pub fn read_type(parser: &mut Parser<'_>) -> Result<Ty, ReadError>
    ensures { Reads (a_part (a_form type_form)) 0 parser.old parser.new result }
{
    let head = start_type(parser)?;
    match head {
        TypeHead::Of(qualifier) => {
            let pretype = read_pretype(parser)?;
            parser.close()?;
            Ok(Ty::Of(qualifier, pretype))
        }
        TypeHead::Var => Ok(Ty::Var(only_index(parser)?)),
        TypeHead::Rec => {
            let bound = read_bound(parser)?;
            Ok(Ty::Rec(bound.qualifier, bound.size, bound.body))
        }
    }
}

/// A type without its qualifier; this project's own. An error is the first fault, or want of memory.
#[cycle(types)]
pub fn read_pretype(parser: &mut Parser<'_>) -> Result<Pre, ReadError>
    ensures { Reads (a_part (a_form pretype_form)) 0 parser.old parser.new result }
{
    let head = match start_pretype(parser)? {
        PretypeStart::Whole(pretype) => return Ok(pretype),
        PretypeStart::Head(head) => head,
    };
    match head {
        PretypeHead::Ptr => Ok(Pre::Ptr(only_index(parser)?)),
        PretypeHead::Own => Ok(Pre::Own(only_index(parser)?)),
        PretypeHead::Cap => {
            let held = read_located(parser)?;
            Ok(Pre::Cap(held.privilege, held.location, held.heap))
        }
        PretypeHead::Tuple => Ok(Pre::Tuple(read_types(parser)?)),
        PretypeHead::Ref => {
            let located = read_located(parser)?;
            Ok(Pre::Ref(located.privilege, located.location, located.heap))
        }
        PretypeHead::Hidden => {
            let memory = parser.memory()?;
            let body = read_type(parser)?;
            parser.close()?;
            Ok(Pre::Hidden(memory, Boxed::new(parser.alloc(), body)?))
        }
        PretypeHead::Code => {
            let function = read_function_type(parser)?;
            parser.close()?;
            Ok(Pre::Code(Boxed::new(parser.alloc(), function)?))
        }
    }
}

/// What stands at a location; this project's own. An error is the first fault, or want of memory.
#[cycle(types)]
pub fn read_heap(parser: &mut Parser<'_>) -> Result<Heap, ReadError>
    ensures { Reads (a_part (a_form heap_form)) 0 parser.old parser.new result }
{
    let head = start_heap(parser)?;
    match head {
        HeapHead::Struct => Ok(Heap::Struct(read_slots(parser)?)),
        HeapHead::Variant => Ok(Heap::Variant(read_types(parser)?)),
        HeapHead::Array => {
            let element = read_type(parser)?;
            parser.close()?;
            Ok(Heap::Array(Boxed::new(parser.alloc(), element)?))
        }
        HeapHead::Exist => {
            let bound = read_bound(parser)?;
            Ok(Heap::Exist(bound.qualifier, bound.size, bound.body))
        }
    }
}

/// The type of a function; this project's own. An error is the first fault, or want of memory.
#[cycle(types)]
pub fn read_function_type(parser: &mut Parser<'_>) -> Result<FunType, ReadError>
    ensures { Reads (a_part (a_form function_type_form)) 0 parser.old parser.new result }
{
    start_function_type(parser)?;
    let binders = parser.binder_list()?;
    let params = read_type_list(parser)?;
    let results = read_type_list(parser)?;
    parser.close()?;
    Ok(FunType {
        binders,
        params,
        results,
    })
}

/// A list of types; this project's own. An error is the first fault, or want of memory.
#[cycle(types)]
pub fn read_type_list(parser: &mut Parser<'_>) -> Result<List<Ty>, ReadError>
    ensures { Reads (a_part (a_form types_form)) 0 parser.old parser.new result }
{
    parser.open()?;
    let types = read_types(parser)?;
    Ok(types)
}

/// Types, and the `)` behind them; this project's own. An error is the first fault, or want of memory.
#[cycle(types)]
pub fn read_types(parser: &mut Parser<'_>) -> Result<List<Ty>, ReadError>
    requires { 0 < parser.old.left.depth }
    ensures { Reads (the_fields (many (a_form type_form))) 1 parser.old parser.new result }
{
    let mut types = List::new(parser.alloc());
    while !parser.closes() {
        types.push(read_type(parser)?)?;
    }
    Ok(types)
}

/// Slots, and the `)` behind them.
#[cycle(types)]
fn read_slots(parser: &mut Parser<'_>) -> Result<List<Slot>, ReadError>
    requires { 0 < parser.old.left.depth }
    ensures { Reads (the_fields (many (a_form slot_form))) 1 parser.old parser.new result }
{
    let mut slots = List::new(parser.alloc());
    while !parser.closes() {
        slots.push(read_slot(parser)?)?;
    }
    Ok(slots)
}

/// A slot of a struct.
#[cycle(types)]
fn read_slot(parser: &mut Parser<'_>) -> Result<Slot, ReadError>
    ensures { Reads (a_part (a_form slot_form)) 0 parser.old parser.new result }
{
    parser.open()?;
    let ty = read_type(parser)?;
    let size = parser.index()?;
    parser.close()?;
    Ok(Slot { ty, size })
}

/// What stands behind the word of a form that binds a type variable.
#[cycle(types)]
fn read_bound(parser: &mut Parser<'_>) -> Result<Bound, ReadError>
    requires { 0 < parser.old.left.depth }
    ensures { MatchResult result (λ b. Gave (the_fields bound_fields) 1 parser.old parser.new (b.qualifier, (b.size, (b.body, tt)))) (Fails (the_fields bound_fields) parser.old) }
{
    let qualifier = parser.qualifier()?;
    let size = parser.index()?;
    let ty = read_type(parser)?;
    parser.close()?;
    let body = Boxed::new(parser.alloc(), ty)?;
    Ok(Bound {
        qualifier,
        size,
        body,
    })
}

/// What stands behind the word of a reference or a capability.
#[cycle(types)]
fn read_located(parser: &mut Parser<'_>) -> Result<Located, ReadError>
    requires { 0 < parser.old.left.depth }
    ensures { MatchResult result (λ l. Gave (the_fields located_fields) 1 parser.old parser.new (l.privilege, (l.location, (l.heap, tt)))) (Fails (the_fields located_fields) parser.old) }
{
    let privilege = parser.privilege()?;
    let location = parser.index()?;
    let heap = read_heap(parser)?;
    parser.close()?;
    Ok(Located {
        privilege,
        location,
        heap,
    })
}
