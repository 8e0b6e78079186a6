//! The operands and the locals of a module of WebAssembly that runs, of all its lists and calls in one row each (WebAssembly Core Specification 1.0,
//! sections 4.2.11 and 4.2.12). Its definitions are `Stacked`, what lies on top and what beneath, `IsCut` and `IsJoined`.
//! Room is reserved once; within it, nothing takes memory.
#![tactic(auto)]

mod locals;
mod operands;

pub use locals::Locals;
pub use operands::Values;
