//! The decoder of WebAssembly modules: bytes in pieces of any length, and the module that they spell or their first fault.
//! Definitions: what a decoder in the middle answers (specs/Decoding.antt), inputs that end in a custom section
//! (specs/CustomSections.antt). Law: `worked_custom_sections`, two such inputs.
#![tactic(auto)]

mod decoded;
mod decoder;
mod laws;
mod state;
mod steps;
mod whole;

pub use decoded::Decoded;
pub use decoder::Decoder;
pub use laws::worked_custom_sections;
pub use whole::decode;
