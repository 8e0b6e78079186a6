//! The height of a code, which is how many operands a frame needs room for (this project's own): a fold over the tree, in one
//! pass. Definitions: what an instruction takes and gives (specs/Changes.antt), over `height_of` of `wasm_typing`.
#![tactic(auto)]

mod change;
mod height;

pub use height::height_of;
