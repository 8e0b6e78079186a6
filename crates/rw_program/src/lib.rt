//! Checked modules and linked programs (this project's own): values that only a check and a link make. Definitions: what modules
//! link to (`specs/Linking.antt`). A law: no function and no global is lost.
#![tactic(auto)]

mod checked;
mod laws;
mod linked;

pub use checked::{CheckError, Checked};
pub use laws::none_dropped;
pub use linked::{Linked, LinkedFunc, LinkedGlobal};
pub use rich_typing::{Note, Place, Rule};
