ghost use Rattle.std.specs.Prelude.{◌≡◌, ◌++◌, ◌<◌, ◌^◌, OnOk, length};
ghost use Rattle.wasm_grammar.specs.Tags.{value_type, block_type, mutability, export_kind};
ghost use Rattle.wasm_grammar.specs.CanonicalTypes.{vector_bytes, result_bytes, limits_bytes, table_type_bytes};
ghost use Rattle.wasm_grammar.specs.CanonicalModules.{import_kind_bytes};

use crate::instructions::push_constant;
use crate::vector::{Entry, push_bytes, push_vector};
use std::alloc::AllocError;
use wasm_ast::{
    DataSeg, ElemSeg, Export, ExportKind, FuncType, Import, ImportKind, Limits, LocalRun, ValTy,
    WGlobal,
};
use wasm_leb::push_u32;

/// The byte of a value type (WebAssembly Core Specification 1.0, 5.3.1).
pub fn value_type_byte(ty: ValTy) -> u8
    ensures { result ≡ value_type ty }
{
    match ty {
        ValTy::I32 => 0x7F,
        ValTy::I64 => 0x7E,
    }
}

/// The byte of a block's result type (5.3.2).
pub fn block_type_byte(ty: Option<ValTy>) -> u8
    ensures { result ≡ block_type ty }
{
    match ty {
        None => 0x40,
        Some(ty) => value_type_byte(ty),
    }
}

/// The byte that says whether a global may be written (5.3.6).
fn mutability_byte(mutable: bool) -> u8
    ensures { result ≡ mutability mutable }
{
    if mutable { 0x01 } else { 0x00 }
}

/// The byte of an export's kind (5.5.10).
fn export_kind_byte(kind: ExportKind) -> u8
    ensures { result ≡ export_kind kind }
{
    match kind {
        ExportKind::Func => 0x00,
        ExportKind::Table => 0x01,
        ExportKind::Memory => 0x02,
        ExportKind::Global => 0x03,
    }
}

impl Entry for ValTy {
    ghost use Rattle.wasm_grammar.specs.CanonicalTypes.{value_type_bytes};

    ghost bytes = { value_type_bytes };

    fn push_to(&self, out: &mut Vec<u8>) -> Result<(), AllocError> {
        out.push(value_type_byte(*self))?;
        Ok(())
    }
}

/// An index (5.5.1).
impl Entry for u32 {
    ghost use Rattle.wasm_leb.specs.Leb.{unsigned_least};

    ghost bytes = { unsigned_least 5 };

    fn push_to(&self, out: &mut Vec<u8>) -> Result<(), AllocError> {
        push_u32(out, *self)
    }
}

impl Entry for FuncType {
    ghost use Rattle.wasm_grammar.specs.CanonicalTypes.{func_type_bytes};

    ghost bytes = { func_type_bytes };

    fn push_to(&self, out: &mut Vec<u8>) -> Result<(), AllocError> {
        out.push(0x60)?;
        push_vector(out, self.params.as_slice())?;
        push_result(out, self.result)
    }
}

/// Appends a vector of no result or of one (5.3.3).
fn push_result(out: &mut Vec<u8>, ty: Option<ValTy>) -> Result<(), AllocError>
    ensures { OnOk result (out.new.items ≡ out.old.items ++ result_bytes ty) }
{
    match ty {
        None => out.push(0x00)?,
        Some(ty) => out.extend_from_slice(&[0x01, value_type_byte(ty)])?,
    }
    Ok(())
}

/// A memory's type (5.3.5).
impl Entry for Limits {
    ghost use Rattle.wasm_grammar.specs.CanonicalTypes.{limits_bytes};

    ghost bytes = { limits_bytes };

    fn push_to(&self, out: &mut Vec<u8>) -> Result<(), AllocError> {
        push_limits(out, *self)
    }
}

/// Appends limits (5.3.4).
fn push_limits(out: &mut Vec<u8>, limits: Limits) -> Result<(), AllocError>
    ensures { OnOk result (out.new.items ≡ out.old.items ++ limits_bytes limits) }
{
    match limits.max {
        None => {
            out.push(0x00)?;
            push_u32(out, limits.min)
        }
        Some(max) => {
            out.push(0x01)?;
            push_u32(out, limits.min)?;
            push_u32(out, max)
        }
    }
}

/// Appends the type of a table of functions (5.3.6).
fn push_table_type(out: &mut Vec<u8>, limits: Limits) -> Result<(), AllocError>
    ensures { OnOk result (out.new.items ≡ out.old.items ++ table_type_bytes limits) }
{
    out.push(0x70)?;
    push_limits(out, limits)
}

/// Appends the vector of a module's table types.
pub fn push_table_types(out: &mut Vec<u8>, tables: &[Limits]) -> Result<(), AllocError>
    requires { length tables.now < 2 ^ 32 }
    ensures { OnOk result (out.new.items ≡ out.old.items ++ vector_bytes table_type_bytes tables.now) }
{
    push_u32(out, tables.len() as u32)?;
    for table in tables {
        push_table_type(out, *table)?;
    }
    Ok(())
}

impl Entry for Import {
    ghost use Rattle.wasm_grammar.specs.CanonicalModules.{import_bytes};

    ghost bytes = { import_bytes };

    fn push_to(&self, out: &mut Vec<u8>) -> Result<(), AllocError> {
        push_bytes(out, self.module.as_slice())?;
        push_bytes(out, self.name.as_slice())?;
        push_import_kind(out, self.what)
    }
}

/// Appends what is imported (5.5.5).
fn push_import_kind(out: &mut Vec<u8>, what: ImportKind) -> Result<(), AllocError>
    ensures { OnOk result (out.new.items ≡ out.old.items ++ import_kind_bytes what) }
{
    match what {
        ImportKind::Func(ty) => {
            out.push(0x00)?;
            push_u32(out, ty)
        }
        ImportKind::Table(limits) => {
            out.push(0x01)?;
            push_table_type(out, limits)
        }
        ImportKind::Memory(limits) => {
            out.push(0x02)?;
            push_limits(out, limits)
        }
        ImportKind::Global(ty, mutable) => {
            out.extend_from_slice(&[0x03, value_type_byte(ty), mutability_byte(mutable)])
        }
    }
}

impl Entry for WGlobal {
    ghost use Rattle.wasm_grammar.specs.CanonicalModules.{global_bytes};

    ghost bytes = { global_bytes };

    fn push_to(&self, out: &mut Vec<u8>) -> Result<(), AllocError> {
        out.extend_from_slice(&[value_type_byte(self.ty), mutability_byte(self.mutable)])?;
        push_constant(out, &self.init)
    }
}

impl Entry for Export {
    ghost use Rattle.wasm_grammar.specs.CanonicalModules.{export_bytes};

    ghost bytes = { export_bytes };

    fn push_to(&self, out: &mut Vec<u8>) -> Result<(), AllocError> {
        push_bytes(out, self.name.as_slice())?;
        out.push(export_kind_byte(self.kind))?;
        push_u32(out, self.index)
    }
}

impl Entry for ElemSeg {
    ghost use Rattle.wasm_grammar.specs.CanonicalModules.{element_bytes};

    ghost bytes = { element_bytes };

    fn push_to(&self, out: &mut Vec<u8>) -> Result<(), AllocError> {
        push_u32(out, self.table)?;
        push_constant(out, &self.offset)?;
        push_vector(out, self.funcs.as_slice())
    }
}

impl Entry for DataSeg {
    ghost use Rattle.wasm_grammar.specs.CanonicalModules.{segment_bytes};

    ghost bytes = { segment_bytes };

    fn push_to(&self, out: &mut Vec<u8>) -> Result<(), AllocError> {
        push_u32(out, self.memory)?;
        push_constant(out, &self.offset)?;
        push_bytes(out, self.bytes.as_slice())
    }
}

impl Entry for LocalRun {
    ghost use Rattle.wasm_grammar.specs.CanonicalModules.{local_run_bytes};

    ghost bytes = { local_run_bytes };

    fn push_to(&self, out: &mut Vec<u8>) -> Result<(), AllocError> {
        push_u32(out, self.count)?;
        out.push(value_type_byte(self.ty))?;
        Ok(())
    }
}
