//! Rows of the rules of Rich modules: modules with their first violation, and modules that are well typed, computed.
#![tactic(auto)]

mod laws;

pub use laws::{
    worked_bodies_with_calls, worked_bodies_with_cells, worked_bodies_with_control,
    worked_bodies_with_locations, worked_bodies_with_variables, worked_fields, worked_notes,
    worked_plain_bodies, worked_programs,
};
