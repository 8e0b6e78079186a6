/// A rule of validation that a module can break; the names are this project's own, the rules those of the
/// WebAssembly Core Specification 1.0, chapter 3.
#[derive(Clone, Copy, Debug, PartialEq, Eq)]
pub enum WRule {
    TypeIndex,
    FuncIndex,
    TableIndex,
    MemoryIndex,
    GlobalIndex,
    LocalIndex,
    LabelIndex,
    ManyTables,
    ManyMemories,
    LimitsOrder,
    ConstExpr,
    ConstGlobal,
    Alignment,
    LabelTypes,
    OperandMissing,
    OperandType,
    EndOperands,
    DuplicateExport,
    StartType,
}
