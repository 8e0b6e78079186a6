use bounded_list::List;
use sqlite_items::Boxed;

/// Whether a value may be dropped and copied (`Unr`) or is used exactly once (`Lin`). `Unr` is below `Lin`; this
/// project's own.
#[derive(Clone, Copy, PartialEq, Eq, Debug)]
pub enum Qual {
    Unr,
    Lin,
}

/// A memory: linear (`L`), or unrestricted (`U`); this project's own.
#[derive(Clone, Copy, PartialEq, Eq, Debug)]
pub enum Mem {
    L,
    U,
}

/// What a reference or a capability allows: to read and write, or to read alone; this project's own.
#[derive(Clone, Copy, PartialEq, Eq, Debug)]
pub enum Priv {
    Rw,
    R,
}

/// A binder of a function type: a location of a memory, or a type of a qualifier and a size in words; this
/// project's own.
#[derive(Clone, Copy, PartialEq, Eq, Debug)]
pub enum Binder {
    Loc(Mem),
    Kind(Qual, u32),
}

/// A type. Locations and type variables are numbered outwards from the innermost binder, apart from
/// each other; this project's own.
#[cycle(types)]
#[derive(Drop)]
pub enum Ty {
    /// A form of value, with its qualifier.
    Of(Qual, Pre),
    /// A type variable.
    Var(u32),
    /// A recursive type of this qualifier and size in words; it binds a type variable.
    Rec(Qual, u32, Boxed<Ty>),
}

/// A type without its qualifier; this project's own.
#[cycle(types)]
#[derive(Drop)]
pub enum Pre {
    Unit,
    I32,
    I64,
    Tuple(List<Ty>),
    /// A reference to a location: what it allows, the location, and what stands there.
    Ref(Priv, u32, Heap),
    /// The address of a location, without any right to it.
    Ptr(u32),
    /// The right to a location, without its address.
    Cap(Priv, u32, Heap),
    /// The right to make a reading capability of this location writing again.
    Own(u32),
    /// A type with a hidden location of this memory, which it binds.
    Hidden(Mem, Boxed<Ty>),
    Code(Boxed<FunType>),
}

/// What stands at a location; this project's own.
#[cycle(types)]
#[derive(Drop)]
pub enum Heap {
    Struct(List<Slot>),
    Variant(List<Ty>),
    Array(Boxed<Ty>),
    /// A value of a hidden type of this qualifier and size in words; it binds a type variable.
    Exist(Qual, u32, Boxed<Ty>),
}

/// A slot of a struct: its type now, and its size in words; this project's own.
#[cycle(types)]
#[derive(Drop)]
pub struct Slot {
    pub ty: Ty,
    pub size: u32,
}

/// The type of a function. The last of its binders is the innermost; this project's own.
#[cycle(types)]
#[derive(Drop)]
pub struct FunType {
    pub binders: List<Binder>,
    pub params: List<Ty>,
    pub results: List<Ty>,
}

/// What answers a binder: a location, or a type; this project's own.
#[derive(Drop)]
pub enum Arg {
    Loc(u32),
    Given(Ty),
}
