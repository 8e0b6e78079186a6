//! The contents of a WebAssembly module's sections, read a byte at a time into the module (WebAssembly Core Specification 1.0,
//! 5.5). Definitions: what each state still reads. A law: a content in the middle wants a byte.
#![tactic(auto)]

mod content;
mod entries;
mod laws;

pub use content::Content;
pub use entries::Entries;
pub use laws::each_content_wants_a_byte;
