ghost use Rattle.std.specs.Prelude.{◌≡◌, ◌↔◌, List, Err, Ok, IfOk, IfErr};
ghost use Rattle.rw_types.specs.LoneMain.{IsLoneMain};
ghost use Rattle.rich_typing.specs.declared.notes.Note.{Note as NoteTree};
ghost use Rattle.rich_typing.specs.Derivations.{IsTyped};
ghost use Rattle.rich_typing.specs.Violations.{Violation, FirstViolation};
ghost use Rattle.rw_check.specs.Answers.{refusal, not_yet_built, TellsFirst, TellsNoTypes, UnlessMemory};

use crate::body::check_body;
use crate::lone::lone_func;
use rw_program::{CheckError, Checked, Place, Rule};
use rw_types::{List, Module};
use std::alloc::Global;

/// Checks a module. It is given back with the notes of its bodies where it is well typed, and else its
/// first violation is told by `Refused` and the module is lost. `Memory` can take the place of either. What is not
/// checked yet is answered by the rule `NotYetBuilt`, which takes no memory; this project's own.
pub fn check(alloc: Global, m: Module) -> Result<Checked, CheckError>
    ensures typed { IfOk result (λ c. (c.source ≡ m) × IsTyped m c.notes) }
    ensures refused { IfErr result (λ e. TellsFirst e m) }

    // The other way round: each derivation and each first violation is found.
    ensures every_typed { (notes : List (List NoteTree)) → IsTyped m notes → UnlessMemory (Ok (record { source = m; notes = notes })) result }
    ensures every_violation { (v : Violation) → FirstViolation m v → UnlessMemory (Err (refusal v)) result }

    ensures not_built { (result ≡ Err not_yet_built) ↔ (IsLoneMain m → ⊥) }
    ensures untyped { IfErr result TellsNoTypes }
{
    let Some(func) = lone_func(&m) else {
        return Err(CheckError::Refused {
            place: Place::FuncType(0),
            rule: Rule::NotYetBuilt,
            found: None,
            expected: None,
        });
    };
    let notes = check_body(alloc, func.body.as_slice())?;
    let mut bodies = List::new(alloc);
    bodies.push(notes)?;
    Ok(Checked::new(m, bodies))
}
