//! The lowering of a linked program to a WebAssembly module. Definitions: the lowered module (`lowering_table`).
//! Laws: today's lowered modules are in the profile of the binary format and have short sections; two of them are written
//! out byte by byte. That they behave as their programs, and end, are laws of `lowering_laws`.
#![tactic(auto)]

mod error;
mod functions;
mod laws;
mod low;
mod parts;

pub use error::LowerError;
pub use laws::{
    low_has_short_contents, low_is_in_profile, seven_is_lowered, unreachable_is_lowered,
};
pub use low::lower;
pub use lowering_table::Pages;
