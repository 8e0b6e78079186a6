ghost use Rattle.std.specs.Prelude.{MatchResult, ◌<◌};
ghost use Rattle.rich_text.specs.Forms.{local_form, local_types_form};
ghost use Rattle.rich_text.specs.Grammars.{a_form, many};
ghost use Rattle.rw_parser.specs.Reads.{Reads, a_part, the_fields};
ghost use Rattle.rw_plain_forms.specs.Signatures.{FailsAtSignature, TookSignature};

use rw_parser::{Parser, ReadError};
use rw_type_forms::{read_type, read_type_list};
use rw_types::{BlockSig, List, LocalTy};

/// A local, and its type.
fn read_local(parser: &mut Parser<'_>) -> Result<LocalTy, ReadError>
    ensures { Reads (a_part (a_form local_form)) 0 parser.old parser.new result }
{
    parser.open()?;
    let index = parser.index()?;
    let ty = read_type(parser)?;
    parser.close()?;
    Ok(LocalTy { index, ty })
}

/// Locals with their types, and the `)` behind them.
fn read_locals(parser: &mut Parser<'_>) -> Result<List<LocalTy>, ReadError>
    requires { 0 < parser.old.left.depth }
    ensures { Reads (the_fields (many (a_form local_form))) 1 parser.old parser.new result }
{
    let mut locals = List::new(parser.alloc());
    while !parser.closes() {
        locals.push(read_local(parser)?)?;
    }
    Ok(locals)
}

/// A list of locals with their types; this project's own. An error is the first fault, or want of memory.
pub fn read_local_types(parser: &mut Parser<'_>) -> Result<List<LocalTy>, ReadError>
    ensures { Reads (a_part (a_form local_types_form)) 0 parser.old parser.new result }
{
    parser.open()?;
    let locals = read_locals(parser)?;
    Ok(locals)
}

/// The signature of a block, as it stands before other fields of its list; this project's own. An error is the first
/// fault, or want of memory.
pub fn read_signature(parser: &mut Parser<'_>) -> Result<BlockSig, ReadError>
    ensures { MatchResult result (TookSignature parser.old parser.new) (FailsAtSignature parser.old) }
{
    let params = read_type_list(parser)?;
    let results = read_type_list(parser)?;
    let locals = read_local_types(parser)?;
    Ok(BlockSig {
        params,
        results,
        locals,
    })
}
