//! How the tool's jobs are begun, done and ended: a file is loaded, acts are performed, and each ends with a line that says why
//! where it was not done. Definitions: the acts and endings of `rwc_reports`, and what code has kept to so far (`Kept`, `Stops`).
#![tactic(auto)]

mod ending;
mod load;
mod perform;

pub use ending::{Done, Status, Stop};
pub use load::load_file;
pub use perform::{append_piece, create_file, put_lines, put_piece};
