ghost use Rattle.std.specs.Prelude.{MatchResult, codes, ◌<◌};
ghost use Rattle.rich_text.specs.Forms.{arm_form, else_form, instruction_form, then_form};
ghost use Rattle.rich_text.specs.Grammars.{a_form, many};
ghost use Rattle.rw_instruction_forms.specs.Blocks.{block_fields, branch_fields};
ghost use Rattle.rw_instruction_words.specs.Words.{block_word};
ghost use Rattle.rw_parser.specs.Reads.{Fails, Gave, Reads, a_part, behind_head, the_fields};

use crate::branches::{start_else, start_then};
use rw_instruction_words::{
    BlockHead, InstructionHead, InstructionStart, instruction_of_word, start_instruction,
};
use rw_parser::{Parser, ReadError};
use rw_plain_forms::{read_index_instruction, read_plain_instruction, read_signature};
use rw_types::{BlockSig, Instr, List};

/// A signature, and the instructions under it.
#[derive(Drop)]
struct Block {
    signature: BlockSig,
    body: List<Instr>,
}

/// The instructions of `then`, and those of `else`.
#[derive(Drop)]
struct Branches {
    taken: List<Instr>,
    otherwise: List<Instr>,
}

/// Instructions, and the `)` behind them; this project's own. An error is the first fault, or want of memory.
#[cycle(instructions)]
pub fn read_instructions(parser: &mut Parser<'_>) -> Result<List<Instr>, ReadError>
    requires { 0 < parser.old.left.depth }
    ensures { Reads (the_fields (many (a_form instruction_form))) 1 parser.old parser.new result }
{
    let mut instructions = List::new(parser.alloc());
    while !parser.closes() {
        instructions.push(read_instruction(parser)?)?;
    }
    Ok(instructions)
}

/// An instruction.
#[cycle(instructions)]
fn read_instruction(parser: &mut Parser<'_>) -> Result<Instr, ReadError>
    ensures { Reads (a_part (a_form instruction_form)) 0 parser.old parser.new result }
{
    let head = match start_instruction(parser)? {
        InstructionStart::Whole(word) => return Ok(instruction_of_word(word)),
        InstructionStart::Head(head) => head,
    };
    match head {
        InstructionHead::Index(head) => read_index_instruction(head, parser),
        InstructionHead::Plain(head) => read_plain_instruction(head, parser),
        InstructionHead::Block(head) => read_block_instruction(head, parser),
    }
}

/// What stands behind `(` and the word of an instruction that holds instructions.
#[cycle(instructions)]
fn read_block_instruction(head: BlockHead, parser: &mut Parser<'_>) -> Result<Instr, ReadError>
    requires { 0 < parser.old.left.depth }
    ensures { Reads (behind_head instruction_form (block_word head)) 1 parser.old parser.new result }
{
    match head {
        BlockHead::Block => {
            let block = read_block(parser)?;
            Ok(Instr::Block(block.signature, block.body))
        }
        BlockHead::Loop => {
            let block = read_block(parser)?;
            Ok(Instr::Loop(block.signature, block.body))
        }
        BlockHead::If => read_if(parser),
        BlockHead::MemUnpack => {
            let block = read_block(parser)?;
            Ok(Instr::MemUnpack(block.signature, block.body))
        }
        BlockHead::VariantCase => read_case(parser),
        BlockHead::ExistUnpack => {
            let block = read_block(parser)?;
            Ok(Instr::ExistUnpack(block.signature, block.body))
        }
    }
}

/// What stands behind the word of a block.
#[cycle(instructions)]
fn read_block(parser: &mut Parser<'_>) -> Result<Block, ReadError>
    requires { 0 < parser.old.left.depth }
    ensures { MatchResult result (λ b. Gave (the_fields block_fields) 1 parser.old parser.new (b.signature.params, (b.signature.results, (b.signature.locals, b.body)))) (Fails (the_fields block_fields) parser.old) }
{
    let signature = read_signature(parser)?;
    let body = read_instructions(parser)?;
    Ok(Block { signature, body })
}

/// What stands behind `(if`.
#[cycle(instructions)]
fn read_if(parser: &mut Parser<'_>) -> Result<Instr, ReadError>
    requires { 0 < parser.old.left.depth }
    ensures { Reads (behind_head instruction_form (codes "if")) 1 parser.old parser.new result }
{
    let signature = read_signature(parser)?;
    let branches = read_branches(parser)?;
    Ok(Instr::If(signature, branches.taken, branches.otherwise))
}

/// The branches of an `if`, and the `)` behind them.
#[cycle(instructions)]
fn read_branches(parser: &mut Parser<'_>) -> Result<Branches, ReadError>
    requires { 0 < parser.old.left.depth }
    ensures { MatchResult result (λ b. Gave (the_fields branch_fields) 1 parser.old parser.new (b.taken, (b.otherwise, tt))) (Fails (the_fields branch_fields) parser.old) }
{
    let taken = read_then(parser)?;
    let otherwise = read_else(parser)?;
    parser.close()?;
    Ok(Branches { taken, otherwise })
}

/// The branch `then`.
#[cycle(instructions)]
fn read_then(parser: &mut Parser<'_>) -> Result<List<Instr>, ReadError>
    ensures { Reads (a_part (a_form then_form)) 0 parser.old parser.new result }
{
    start_then(parser)?;
    let instructions = read_instructions(parser)?;
    Ok(instructions)
}

/// The branch `else`.
#[cycle(instructions)]
fn read_else(parser: &mut Parser<'_>) -> Result<List<Instr>, ReadError>
    ensures { Reads (a_part (a_form else_form)) 0 parser.old parser.new result }
{
    start_else(parser)?;
    let instructions = read_instructions(parser)?;
    Ok(instructions)
}

/// What stands behind `(variant.case`.
#[cycle(instructions)]
fn read_case(parser: &mut Parser<'_>) -> Result<Instr, ReadError>
    requires { 0 < parser.old.left.depth }
    ensures { Reads (behind_head instruction_form (codes "variant.case")) 1 parser.old parser.new result }
{
    let signature = read_signature(parser)?;
    let arms = read_arms(parser)?;
    Ok(Instr::VariantCase(signature, arms))
}

/// The arms of a `variant.case`, and the `)` behind them.
#[cycle(instructions)]
fn read_arms(parser: &mut Parser<'_>) -> Result<List<List<Instr>>, ReadError>
    requires { 0 < parser.old.left.depth }
    ensures { Reads (the_fields (many (a_form arm_form))) 1 parser.old parser.new result }
{
    let mut arms = List::new(parser.alloc());
    while !parser.closes() {
        arms.push(read_arm(parser)?)?;
    }
    Ok(arms)
}

/// An arm of a `variant.case`.
#[cycle(instructions)]
fn read_arm(parser: &mut Parser<'_>) -> Result<List<Instr>, ReadError>
    ensures { Reads (a_part (a_form arm_form)) 0 parser.old parser.new result }
{
    parser.open()?;
    let instructions = read_instructions(parser)?;
    Ok(instructions)
}
