//! Canonical texts of instructions by their immediates, and of the signatures of blocks. The definitions are those of
//! `rich_writing`.
#![tactic(auto)]

mod immediates;
mod signature;

pub use immediates::{
    push_array_malloc, push_call, push_const32, push_const64, push_exist_pack, push_group,
    push_inst, push_mem_pack, push_numbers, push_rec_fold, push_struct_malloc, push_variant_malloc,
};
pub use signature::push_signature;
