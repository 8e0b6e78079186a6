// Laws of reading: a reader takes exactly the bytes that a production spells, and no others.

ghost use Rattle.wasm_reading_values.specs.EntriesRead.{CodeVectorsReadExactly, CodesReadExactly, ConstantsReadExactly, ElementsReadExactly, ExportsReadExactly, ExpressionsReadExactly, GlobalsReadExactly, ImportsReadExactly, LocalsReadExactly, SegmentsReadExactly, ShortExpressionsFit};
ghost use Rattle.wasm_reading_values.specs.TypesRead.{BlockTypesReadExactly, FlagsReadExactly, FuncTypesReadExactly, KindsReadExactly, LimitsReadExactly, MemoryTypesReadExactly, TableTypesReadExactly, ValueTypesReadExactly};
ghost use Rattle.wasm_reading_values.specs.ValuesRead.{ByteVectorsReadExactly, BytesReadExactly, IndexVectorsReadExactly, NamesReadExactly, S32ReadExactly, S64ReadExactly, U32ReadExactly};

/// A law: bytes, numbers, vectors of indices and of bytes, and names are read exactly where the grammar spells
/// them (WebAssembly Core Specification 1.0, section 5.2).
pub fn values_are_read_exactly()
    ensures byte { BytesReadExactly }
    ensures u32 { U32ReadExactly }
    ensures s32 { S32ReadExactly }
    ensures s64 { S64ReadExactly }
    ensures index_vector { IndexVectorsReadExactly }
    ensures byte_vector { ByteVectorsReadExactly }
    ensures name { NamesReadExactly }
{}

/// A law: types are read exactly where the grammar spells types of the profile (WebAssembly Core Specification
/// 1.0, section 5.3).
pub fn types_are_read_exactly()
    ensures value_type { ValueTypesReadExactly }
    ensures block_type { BlockTypesReadExactly }
    ensures flag { FlagsReadExactly }
    ensures kind { KindsReadExactly }
    ensures func_type { FuncTypesReadExactly }
    ensures limits { LimitsReadExactly }
    ensures memory_type { MemoryTypesReadExactly }
    ensures table_type { TableTypesReadExactly }
{}

/// A law: the entries of sections are read exactly where the grammar spells entries of the profile (WebAssembly
/// Core Specification 1.0, section 5.5); those with instructions, where expressions are read exactly.
pub fn entries_are_read_exactly()
    ensures import { ImportsReadExactly }
    ensures export { ExportsReadExactly }
    ensures global { ConstantsReadExactly → GlobalsReadExactly }
    ensures element { ConstantsReadExactly → ElementsReadExactly }
    ensures segment { ConstantsReadExactly → SegmentsReadExactly }
    ensures locals { LocalsReadExactly }
    ensures code { ExpressionsReadExactly → ShortExpressionsFit → CodesReadExactly }
    ensures codes { CodesReadExactly → CodeVectorsReadExactly }
{}
