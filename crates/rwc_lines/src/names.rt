// The names of faults, rules and traps.
ghost use Rattle.std.specs.Prelude.{◌≡◌};
ghost use Rattle.rwc_reports.specs.Binaries.{fault_name};
ghost use Rattle.rwc_reports.specs.Executables.{validation_name};
ghost use Rattle.rwc_reports.specs.Runs.{trap_name};

use machine_steps::Trap;
use wasm_reading::DecodeFault;
use wasm_typing::WRule;

/// The name of a fault of a binary.
pub fn of_fault(fault: DecodeFault) -> &'static str
    ensures { result.now ≡ fault_name fault }
{
    match fault {
        DecodeFault::Truncated => "Truncated",
        DecodeFault::BadMagic => "BadMagic",
        DecodeFault::BadVersion => "BadVersion",
        DecodeFault::BadLeb => "BadLeb",
        DecodeFault::BadTag => "BadTag",
        DecodeFault::BadOrder => "BadOrder",
        DecodeFault::BadLength => "BadLength",
        DecodeFault::BadUtf8 => "BadUtf8",
        DecodeFault::CountMismatch => "CountMismatch",
        DecodeFault::FloatOutside => "FloatOutside",
        DecodeFault::LimitOutside => "LimitOutside",
        DecodeFault::Memory => "Memory",
    }
}

/// The name of a rule of validation.
pub fn of_rule(rule: WRule) -> &'static str
    ensures { result.now ≡ validation_name rule }
{
    match rule {
        WRule::TypeIndex => "TypeIndex",
        WRule::FuncIndex => "FuncIndex",
        WRule::TableIndex => "TableIndex",
        WRule::MemoryIndex => "MemoryIndex",
        WRule::GlobalIndex => "GlobalIndex",
        WRule::LocalIndex => "LocalIndex",
        WRule::LabelIndex => "LabelIndex",
        WRule::ManyTables => "ManyTables",
        WRule::ManyMemories => "ManyMemories",
        WRule::LimitsOrder => "LimitsOrder",
        WRule::ConstExpr => "ConstExpr",
        WRule::ConstGlobal => "ConstGlobal",
        WRule::Alignment => "Alignment",
        WRule::LabelTypes => "LabelTypes",
        WRule::OperandMissing => "OperandMissing",
        WRule::OperandType => "OperandType",
        WRule::EndOperands => "EndOperands",
        WRule::DuplicateExport => "DuplicateExport",
        WRule::StartType => "StartType",
    }
}

/// The name of a trap.
pub fn of_trap(trap: Trap) -> &'static str
    ensures { result.now ≡ trap_name trap }
{
    match trap {
        Trap::DivideByZero => "divide-by-zero",
        Trap::Overflow => "overflow",
        Trap::Index => "index",
        Trap::Unreachable => "unreachable",
        Trap::Exhausted => "exhausted",
        Trap::MemoryBounds => "memory-bounds",
        Trap::TableBounds => "table-bounds",
        Trap::Uninitialised => "uninitialised",
        Trap::Signature => "signature",
    }
}
