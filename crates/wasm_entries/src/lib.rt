//! Entries of a WebAssembly module's sections, read a byte at a time (WebAssembly Core Specification 1.0, 5.5). Definitions:
//! what each state still reads. It has no laws.
#![tactic(auto)]

mod element;
mod export;
mod func_type;
mod global;
mod import;
mod segment;

pub use element::ElementState;
pub use export::ExportState;
pub use func_type::FuncTypeState;
pub use global::GlobalState;
pub use import::ImportState;
pub use segment::SegmentState;
