//! The row that enters a block, at which a step of a sound program is safe: in bodies, and in the program's own list, where a block
//! gives a global its first value.
#![tactic(auto)]

ghost use Rattle.rich_soundness_blocks.specs.Laws.{BlockRowIsSafe};

/// A law: steps are safe at rows that enter a block.
pub fn block_row_is_safe()
    ensures { BlockRowIsSafe }
{}
