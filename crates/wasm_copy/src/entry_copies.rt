use crate::instruction_copies::{copy_instruction, copy_instructions};
use crate::trees::Duplicate;
use std::alloc::{AllocError, Global};
use wasm_ast::{Code, DataSeg, ElemSeg, Export, FuncType, Import, List, WGlobal};

impl Duplicate for FuncType {
    fn duplicate(&self, alloc: Global) -> Result<FuncType, AllocError> {
        Ok(FuncType {
            params: List::from_slice(alloc, self.params.as_slice())?,
            result: self.result,
        })
    }
}

impl Duplicate for Import {
    fn duplicate(&self, alloc: Global) -> Result<Import, AllocError> {
        Ok(Import {
            module: List::from_slice(alloc, self.module.as_slice())?,
            name: List::from_slice(alloc, self.name.as_slice())?,
            what: self.what,
        })
    }
}

impl Duplicate for WGlobal {
    fn duplicate(&self, alloc: Global) -> Result<WGlobal, AllocError> {
        Ok(WGlobal {
            ty: self.ty,
            mutable: self.mutable,
            init: copy_instruction(alloc, &self.init)?,
        })
    }
}

impl Duplicate for Export {
    fn duplicate(&self, alloc: Global) -> Result<Export, AllocError> {
        Ok(Export {
            name: List::from_slice(alloc, self.name.as_slice())?,
            kind: self.kind,
            index: self.index,
        })
    }
}

impl Duplicate for ElemSeg {
    fn duplicate(&self, alloc: Global) -> Result<ElemSeg, AllocError> {
        Ok(ElemSeg {
            table: self.table,
            offset: copy_instruction(alloc, &self.offset)?,
            funcs: List::from_slice(alloc, self.funcs.as_slice())?,
        })
    }
}

impl Duplicate for Code {
    fn duplicate(&self, alloc: Global) -> Result<Code, AllocError> {
        Ok(Code {
            locals: List::from_slice(alloc, self.locals.as_slice())?,
            body: copy_instructions(alloc, self.body.as_slice())?,
        })
    }
}

impl Duplicate for DataSeg {
    fn duplicate(&self, alloc: Global) -> Result<DataSeg, AllocError> {
        Ok(DataSeg {
            memory: self.memory,
            offset: copy_instruction(alloc, &self.offset)?,
            bytes: List::from_slice(alloc, self.bytes.as_slice())?,
        })
    }
}
