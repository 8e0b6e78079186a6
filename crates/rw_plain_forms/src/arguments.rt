ghost use Rattle.std.specs.Prelude.{codes, ◌<◌};
ghost use Rattle.rich_text.specs.Forms.{argument_form};
ghost use Rattle.rich_text.specs.Grammars.{a_form, many};
ghost use Rattle.rw_parser.specs.Reads.{Reads, a_part, behind_head, the_fields};

use rw_parser::{FormStart, Parser, ReadError, bad_form, is_word};
use rw_type_forms::{only_index, read_type};
use rw_types::{Arg, List};

/// What stands behind `(loc`.
fn location_argument(parser: &mut Parser<'_>) -> Result<Arg, ReadError>
    requires { 0 < parser.old.left.depth }
    ensures { Reads (behind_head argument_form (codes "loc")) 1 parser.old parser.new result }
{
    let location = only_index(parser)?;
    Ok(Arg::Loc(location))
}

/// What stands behind `(type`.
fn type_argument(parser: &mut Parser<'_>) -> Result<Arg, ReadError>
    requires { 0 < parser.old.left.depth }
    ensures { Reads (behind_head argument_form (codes "type")) 1 parser.old parser.new result }
{
    let ty = read_type(parser)?;
    parser.close()?;
    Ok(Arg::Given(ty))
}

/// An argument.
fn read_argument(parser: &mut Parser<'_>) -> Result<Arg, ReadError>
    ensures { Reads (a_part (a_form argument_form)) 0 parser.old parser.new result }
{
    match parser.start()? {
        FormStart::Word(_word, at) => Err(bad_form(at)),
        FormStart::Head(word, at) => {
            if is_word(&word, b"loc") {
                location_argument(parser)
            } else if is_word(&word, b"type") {
                type_argument(parser)
            } else {
                Err(bad_form(at))
            }
        }
    }
}

/// Arguments, and the `)` behind them; this project's own. An error is the first fault, or want of memory.
pub fn read_arguments(parser: &mut Parser<'_>) -> Result<List<Arg>, ReadError>
    requires { 0 < parser.old.left.depth }
    ensures { Reads (the_fields (many (a_form argument_form))) 1 parser.old parser.new result }
{
    let mut arguments = List::new(parser.alloc());
    while !parser.closes() {
        arguments.push(read_argument(parser)?)?;
    }
    Ok(arguments)
}
