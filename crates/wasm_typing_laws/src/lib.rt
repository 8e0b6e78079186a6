//! Laws of the typing of WebAssembly modules: trees and byte order have the same derivations, a body or a module is
//! valid or has exactly one first violation. `Checking` of specs/ is the algorithm of the standard's appendix A.3, which
//! the laws show to be exact; `height_is_the_greatest` says what a height is; `worked_violations` are computed rows.
#![tactic(auto)]

mod laws;

pub use laws::{
    a_body_is_typed_or_violated, a_module_is_valid_or_violated, byte_order_is_exact,
    worked_violations,
};
