//! Globals.
ghost use Rattle.std.specs.Prelude.{◌≡◌, None, Some};
ghost use Rattle.wasm_typing.specs.Fields.{global_rule};
ghost use Rattle.wasm_typing.specs.Modules.{first_alone};
ghost use Rattle.wasm_fields.specs.Answers.{Tells};

use crate::error::FieldError;
use wasm_ast::WGlobal;
use wasm_constants::{constant_form, constant_index, constant_type};
use wasm_typing::{GlobalType, WRule};

/// The rule that a global breaks, whose initial value may read these globals.
fn global_rule(globals: &[GlobalType], g: &WGlobal) -> Option<WRule>
    ensures { result ≡ global_rule globals.now g.now }
{
    constant_index(globals, &g.init)
        .or(constant_form(globals, &g.init))
        .or(constant_type(globals, g.ty, &g.init))
}

/// The globals, whose initial values may read these globals.
pub fn check_globals(imported: &[GlobalType], globals: &[WGlobal]) -> Result<(), FieldError>
    ensures { Tells (first_alone (global_rule imported.now) globals.now) result }
{
    for (at, g) in globals.iter().enumerate() {
        if let Some(rule) = global_rule(imported, g) {
            return Err(FieldError::Invalid { at, rule });
        }
    }
    Ok(())
}
