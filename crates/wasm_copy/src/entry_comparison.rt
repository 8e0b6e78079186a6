use crate::instruction_comparison::{same_instruction, same_instructions};
use crate::trees::{Compare, same_entries};
use wasm_ast::{
    Code, DataSeg, ElemSeg, Export, FuncType, Import, Limits, LocalRun, ValTy, WGlobal,
};

impl Compare for u8 {
    fn same(&self, other: &u8) -> bool {
        self == other
    }
}

impl Compare for u32 {
    fn same(&self, other: &u32) -> bool {
        self == other
    }
}

impl Compare for ValTy {
    fn same(&self, other: &ValTy) -> bool {
        self == other
    }
}

impl Compare for Limits {
    fn same(&self, other: &Limits) -> bool {
        self == other
    }
}

impl Compare for LocalRun {
    fn same(&self, other: &LocalRun) -> bool {
        self == other
    }
}

impl Compare for FuncType {
    fn same(&self, other: &FuncType) -> bool {
        self.result == other.result && same_entries(self.params.as_slice(), other.params.as_slice())
    }
}

impl Compare for Import {
    fn same(&self, other: &Import) -> bool {
        self.what == other.what
            && same_entries(self.module.as_slice(), other.module.as_slice())
            && same_entries(self.name.as_slice(), other.name.as_slice())
    }
}

impl Compare for WGlobal {
    fn same(&self, other: &WGlobal) -> bool {
        self.ty == other.ty
            && self.mutable == other.mutable
            && same_instruction(&self.init, &other.init)
    }
}

impl Compare for Export {
    fn same(&self, other: &Export) -> bool {
        self.kind == other.kind
            && self.index == other.index
            && same_entries(self.name.as_slice(), other.name.as_slice())
    }
}

impl Compare for ElemSeg {
    fn same(&self, other: &ElemSeg) -> bool {
        self.table == other.table
            && same_instruction(&self.offset, &other.offset)
            && same_entries(self.funcs.as_slice(), other.funcs.as_slice())
    }
}

impl Compare for Code {
    fn same(&self, other: &Code) -> bool {
        same_entries(self.locals.as_slice(), other.locals.as_slice())
            && same_instructions(self.body.as_slice(), other.body.as_slice())
    }
}

impl Compare for DataSeg {
    fn same(&self, other: &DataSeg) -> bool {
        self.memory == other.memory
            && same_instruction(&self.offset, &other.offset)
            && same_entries(self.bytes.as_slice(), other.bytes.as_slice())
    }
}
