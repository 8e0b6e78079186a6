//! The lowering table: the WebAssembly module that a linked program is lowered to, an equation for each
//! instruction. It is definitions, the page counts that they are given, a law of its types, and rows that are computed.
#![tactic(auto)]

ghost use Rattle.lowering_table.specs.TypeLaws.{FunctionsHaveTheirTypes, ListedTypesAreUsed, TypesAreInOrder, TypesAreListedOnce, UsedTypesAreListed};
ghost use Rattle.lowering_table.specs.Worked.{EndedFunction, EndedInitialiser, IndirectTypes, NestedOrder, SwapHeight, TwoInitialisers};

/// How many pages of 65,536 bytes the memory of a lowered program has: 1 to 512 for the linear part, and 0 to 512
/// for the unrestricted region; this project's own.
#[derive(Clone, Copy, Debug, PartialEq, Eq)]
pub struct Pages {
    pub lin: u32,
    pub unr: u32,
}

/// A law: of any program, each function type that is used stands in the lowered module's types at its index and nowhere
/// else, no other type is listed, they stand in the order of their first uses, and the type indices of the module's
/// functions lead to their types.
pub fn types_are_indexed()
    ensures listed { UsedTypesAreListed }
    ensures once { TypesAreListedOnce }
    ensures used { ListedTypesAreUsed }
    ensures order { TypesAreInOrder }
    ensures functions { FunctionsHaveTheirTypes }
{}

/// Rows: the code of a function whose list is ended at once; that of an exported main with two initialisers, and with one whose
/// list is ended at once; the height of a swap; the order of the instructions of a body with lists; and the types of a program
/// with an indirect call in a block.
pub fn rows_are_lowered()
    ensures ended { EndedFunction }
    ensures initialisers { TwoInitialisers }
    ensures ended_initialiser { EndedInitialiser }
    ensures swap { SwapHeight }
    ensures order { NestedOrder }
    ensures types { IndirectTypes }
{}
