ghost use Rattle.wasm_typing.specs.Rows.{WorkedFaults, WorkedHeights};

/// Rows: heights of three bodies; what stands behind an unconditional branch does not count.
pub fn worked_heights()
    ensures { WorkedHeights }
{}

/// Rows: each rule of what stands outside function bodies, broken once.
pub fn worked_faults()
    ensures { WorkedFaults }
{}
