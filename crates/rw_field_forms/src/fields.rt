ghost use Rattle.std.specs.Prelude.{codes, ◌<◌};
ghost use Rattle.rich_text.specs.Forms.{function_form, global_form, import_form, locals_form};
ghost use Rattle.rich_text.specs.Grammars.{a_form};
ghost use Rattle.rw_parser.specs.Reads.{Reads, a_part, behind_head};

use rw_instruction_forms::read_instructions;
use rw_parser::{FormStart, Parser, ReadError, bad_form, is_word};
use rw_type_forms::{read_function_type, read_type};
use rw_types::{FuncDef, GlobalDef, ImportDef, List};

/// What stands behind `(import`.
pub fn read_import(parser: &mut Parser<'_>) -> Result<ImportDef, ReadError>
    requires { 0 < parser.old.left.depth }
    ensures { Reads (behind_head import_form (codes "import")) 1 parser.old parser.new result }
{
    let module = parser.name()?;
    let name = parser.name()?;
    let ty = read_function_type(parser)?;
    parser.close()?;
    Ok(ImportDef { module, name, ty })
}

/// What stands behind `(func`.
pub fn read_function(parser: &mut Parser<'_>) -> Result<FuncDef, ReadError>
    requires { 0 < parser.old.left.depth }
    ensures { Reads (behind_head function_form (codes "func")) 1 parser.old parser.new result }
{
    let ty = read_function_type(parser)?;
    let locals = read_locals(parser)?;
    let body = read_instructions(parser)?;
    Ok(FuncDef { ty, locals, body })
}

/// What stands behind `(global`.
pub fn read_global(parser: &mut Parser<'_>) -> Result<GlobalDef, ReadError>
    requires { 0 < parser.old.left.depth }
    ensures { Reads (behind_head global_form (codes "global")) 1 parser.old parser.new result }
{
    let mutable = parser.mutability()?;
    let ty = read_type(parser)?;
    let body = read_instructions(parser)?;
    Ok(GlobalDef { mutable, ty, body })
}

/// The sizes of the declared locals of a function.
fn read_locals(parser: &mut Parser<'_>) -> Result<List<u32>, ReadError>
    ensures { Reads (a_part (a_form locals_form)) 0 parser.old parser.new result }
{
    match parser.start()? {
        FormStart::Word(_word, at) => Err(bad_form(at)),
        FormStart::Head(word, at) => {
            if is_word(&word, b"locals") {
                read_sizes(parser)
            } else {
                Err(bad_form(at))
            }
        }
    }
}

/// What stands behind `(locals`.
fn read_sizes(parser: &mut Parser<'_>) -> Result<List<u32>, ReadError>
    requires { 0 < parser.old.left.depth }
    ensures { Reads (behind_head locals_form (codes "locals")) 1 parser.old parser.new result }
{
    let mut sizes = List::new(parser.alloc());
    while !parser.closes() {
        sizes.push(parser.index()?)?;
    }
    Ok(sizes)
}
