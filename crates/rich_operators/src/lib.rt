//! The integer operators that Rich number instructions name, with their widths. What they compute stands in `wasm_num`.
#![tactic(auto)]

ghost use Rattle.rich_operators.specs.Rows.{WorkedOperators, WorkedWidths};

/// Rows, computed: the operator of an instruction at each end of a run of opcodes, and the widths of what operators take and give.
pub fn worked_operators()
    ensures operators { WorkedOperators }
    ensures widths { WorkedWidths }
{}
