ghost use Rattle.std.specs.Prelude.{◌≡◌, ◌↔◌, ◌≤◌, [], length, Err, IfOk, IfErr, MatchResult, Some};
ghost use Rattle.rw_program.specs.Linking.{program_of};
ghost use Rattle.rw_link.specs.Answers.{LinksTo, IsNoMainOrMemory};

use crate::error::LinkError;
use crate::exports::main_export;
use rw_program::{Checked, Linked, LinkedFunc};
use rw_types::{List, Name};
use std::alloc::Global;

/// Links files, given with their names, to the program whose main function is the export `main` of the
/// last file. At most one file is linked so far. `NoMain` where there is none; `Memory` where memory is wanting; this
/// project's own.
pub fn link(alloc: Global, files: Vec<(Name, Checked)>) -> Result<Linked, LinkError>
    requires { length files.items ≤ 1 }
    ensures linked { IfOk result (λ program. LinksTo files.items program) }
    ensures no_main { (result ≡ Err LinkError.NoMain) ↔ (files.items ≡ []) }
    ensures refused { IfErr result IsNoMainOrMemory }
{
    let mut files = files;
    let Some((_name, file)) = files.pop() else {
        return Err(LinkError::NoMain);
    };
    link_file(alloc, file)
}

/// The program of the first file alone.
fn link_file(alloc: Global, file: Checked) -> Result<Linked, LinkError>
    ensures { MatchResult result (λ program. program_of file ≡ Some program) (λ e. e ≡ LinkError.Memory) }
{
    let (source, mut bodies) = file.into_parts();
    let main = main_export(alloc, source.exports.as_slice())?;
    let mut funcs = source.funcs;
    let (Some(func), Some(notes), Some(main)) = (funcs.pop(), bodies.pop(), main) else {
        unreachable!()
    };
    let mut linked = List::new(alloc);
    linked.push(LinkedFunc {
        file: 0,
        ty: func.ty,
        locals: func.locals,
        body: func.body,
        notes,
    })?;
    Ok(Linked::new(linked, List::new(alloc), main))
}
