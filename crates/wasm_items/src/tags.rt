ghost use Rattle.std.specs.Prelude.{◌≡◌};
ghost use Rattle.wasm_reading.specs.ReadValues.{only as only_byte};
ghost use Rattle.wasm_reading.specs.ReadTypes.{value_type_of, block_type_of, flag_of};
ghost use Rattle.wasm_reading.specs.ReadModules.{external_kind_of};
ghost use Rattle.wasm_items.specs.Residuals.{placed};

use wasm_ast::{ExportKind, ValTy};
use wasm_reading::{DecodeError, DecodeFault};

/// One byte that the binary format demands (WebAssembly Core Specification 1.0, section 5.1.1). `BadTag` at its
/// place `at` where it is another one.
pub fn only(wanted: u8, byte: u8, at: u64) -> Result<(), DecodeError>
    ensures { result ≡ placed at (only_byte wanted byte) }
{
    if byte == wanted {
        Ok(())
    } else {
        Err(DecodeError {
            at,
            fault: DecodeFault::BadTag,
        })
    }
}

/// The value type of a byte (section 5.3.1). `FloatOutside` and `BadTag` at its place `at`.
pub fn value_type(byte: u8, at: u64) -> Result<ValTy, DecodeError>
    ensures { result ≡ placed at (value_type_of byte) }
{
    match byte {
        0x7F => Ok(ValTy::I32),
        0x7E => Ok(ValTy::I64),
        0x7C | 0x7D => Err(DecodeError {
            at,
            fault: DecodeFault::FloatOutside,
        }),
        _ => Err(DecodeError {
            at,
            fault: DecodeFault::BadTag,
        }),
    }
}

/// The result type of a block, of a byte (section 5.3.2). `FloatOutside` and `BadTag` at its place `at`.
pub fn block_type(byte: u8, at: u64) -> Result<Option<ValTy>, DecodeError>
    ensures { result ≡ placed at (block_type_of byte) }
{
    match byte {
        0x40 => Ok(None),
        0x7F => Ok(Some(ValTy::I32)),
        0x7E => Ok(Some(ValTy::I64)),
        0x7C | 0x7D => Err(DecodeError {
            at,
            fault: DecodeFault::FloatOutside,
        }),
        _ => Err(DecodeError {
            at,
            fault: DecodeFault::BadTag,
        }),
    }
}

/// Whether limits have a maximum (section 5.3.4), or whether a global is mutable (section 5.3.7), of a byte.
/// `BadTag` at its place `at`.
pub fn flag(byte: u8, at: u64) -> Result<bool, DecodeError>
    ensures { result ≡ placed at (flag_of byte) }
{
    match byte {
        0x00 => Ok(false),
        0x01 => Ok(true),
        _ => Err(DecodeError {
            at,
            fault: DecodeFault::BadTag,
        }),
    }
}

/// The kind of an import or an export, of a byte (sections 5.5.5 and 5.5.10). `BadTag` at its place `at`.
pub fn external_kind(byte: u8, at: u64) -> Result<ExportKind, DecodeError>
    ensures { result ≡ placed at (external_kind_of byte) }
{
    match byte {
        0x00 => Ok(ExportKind::Func),
        0x01 => Ok(ExportKind::Table),
        0x02 => Ok(ExportKind::Memory),
        0x03 => Ok(ExportKind::Global),
        _ => Err(DecodeError {
            at,
            fault: DecodeFault::BadTag,
        }),
    }
}
