// The sections of the lowered module but for its codes.
ghost use Rattle.std.specs.Prelude.{◌≡◌, [], ◌∷◌, ◌+◌, ◌≤◌, IfOk, None, Some};
ghost use Rattle.wasm_ast.specs.declared.types.ValTy.TheVariants.{I64};
ghost use Rattle.lowering_table.specs.Types.{print_type, alloc_type, start_type};
ghost use Rattle.lowering_table.specs.Modules.{ArePages, first_pages, most_pages, free_list_bytes, word_global, region_start};
ghost use Rattle.lower.specs.Parts.{lone_types, lone_imports, lone_memories, lone_globals, lone_exports, lone_elements, lone_segments};

use crate::LowerError;
use lowering_table::Pages;
use std::alloc::Global;
use wasm_ast::{
    DataSeg, ElemSeg, Export, ExportKind, FuncType, Import, ImportKind, Limits, List, ValTy,
    WGlobal, WInstr,
};

const WORD: [ValTy; 1] = [ValTy::I64];

/// The types: of a print and a release, of an allocation, of the linked function, and of the exported main.
pub fn types(alloc: Global) -> Result<List<FuncType>, LowerError>
    ensures { IfOk result (λ types. types ≡ lone_types) }
{
    let mut types = List::new(alloc);
    types.push(func_type(alloc, &WORD, None)?)?;
    types.push(func_type(alloc, &WORD, Some(ValTy::I64))?)?;
    types.push(func_type(alloc, &[], None)?)?;
    types.push(func_type(alloc, &[], Some(ValTy::I64))?)?;
    Ok(types)
}

fn func_type(
    alloc: Global,
    params: &[ValTy],
    outcome: Option<ValTy>,
) -> Result<FuncType, LowerError>
    ensures { IfOk result (λ ty. ty ≡ record { params = params.now; result = outcome }) }
{
    Ok(FuncType {
        params: List::from_slice(alloc, params)?,
        result: outcome,
    })
}

/// The one import, `rw.print`.
pub fn imports(alloc: Global) -> Result<List<Import>, LowerError>
    ensures { IfOk result (λ imports. imports ≡ lone_imports) }
{
    let mut imports = List::new(alloc);
    imports.push(Import {
        module: List::from_slice(alloc, b"rw")?,
        name: List::from_slice(alloc, b"print")?,
        what: ImportKind::Func(0),
    })?;
    Ok(imports)
}

/// The memory, of all pages from the start.
pub fn memories(alloc: Global, pages: &Pages) -> Result<List<Limits>, LowerError>
    requires { ArePages pages.now }
    ensures { IfOk result (λ memories. memories ≡ lone_memories pages.now) }
{
    let limits = Limits {
        min: pages.lin + pages.unr,
        max: Some(pages.lin + pages.unr),
    };
    Ok(List::from_slice(alloc, &[limits])?)
}

/// The trap code, the next address of the unrestricted region, and one result word.
pub fn globals(alloc: Global, pages: &Pages) -> Result<List<WGlobal>, LowerError>
    requires { ArePages pages.now }
    ensures { IfOk result (λ globals. globals ≡ lone_globals pages.now) }
{
    let mut globals = List::new(alloc);
    globals.push(WGlobal {
        ty: ValTy::I32,
        mutable: true,
        init: WInstr::I32Const(0),
    })?;
    globals.push(word(65_536 * u64::from(pages.lin)))?;
    globals.push(word(0))?;
    Ok(globals)
}

fn word(n: u64) -> WGlobal
    ensures { result ≡ word_global n }
{
    WGlobal {
        ty: ValTy::I64,
        mutable: true,
        init: WInstr::I64Const(n),
    }
}

/// The exports `main`, `memory` and `trap_code`.
pub fn exports(alloc: Global) -> Result<List<Export>, LowerError>
    ensures { IfOk result (λ exports. exports ≡ lone_exports) }
{
    let mut exports = List::new(alloc);
    exports.push(export(alloc, b"main", ExportKind::Func, 5)?)?;
    exports.push(export(alloc, b"memory", ExportKind::Memory, 0)?)?;
    exports.push(export(alloc, b"trap_code", ExportKind::Global, 0)?)?;
    Ok(exports)
}

fn export(alloc: Global, name: &[u8], kind: ExportKind, index: u32) -> Result<Export, LowerError>
    ensures { IfOk result (λ export. export ≡ record { name = name.now; kind = kind; index = index }) }
{
    Ok(Export {
        name: List::from_slice(alloc, name)?,
        kind,
        index,
    })
}

/// The element segment: the one linked function.
pub fn elements(alloc: Global) -> Result<List<ElemSeg>, LowerError>
    ensures { IfOk result (λ elements. elements ≡ lone_elements) }
{
    let mut elements = List::new(alloc);
    elements.push(ElemSeg {
        table: 0,
        offset: WInstr::I32Const(0),
        funcs: List::from_slice(alloc, &[4])?,
    })?;
    Ok(elements)
}

/// The data segment: the free list at the start.
pub fn segments(alloc: Global, pages: &Pages) -> Result<List<DataSeg>, LowerError>
    requires { ArePages pages.now }
    ensures { IfOk result (λ segments. segments ≡ lone_segments pages.now) }
{
    let mut bytes = Vec::from_slice(alloc, &24_u64.to_le_bytes())?;
    bytes.extend_from_slice(&(8_192 * u64::from(pages.lin) - 3).to_le_bytes())?;
    let mut segments = List::new(alloc);
    segments.push(DataSeg {
        memory: 0,
        offset: WInstr::I32Const(8),
        bytes: List::from_vec(bytes)?,
    })?;
    Ok(segments)
}
