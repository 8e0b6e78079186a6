//! Instructions that make cells, but for structs, and `array.set`, over a stack of operands that cannot be dropped: each does
//! what its row of the table in `rich_rules` says. After an error the stack is as it was.
#![tactic(auto)]

mod arrays;
mod making;

pub use arrays::take_array_set;
pub use making::{take_exist_pack, take_variant_malloc};
