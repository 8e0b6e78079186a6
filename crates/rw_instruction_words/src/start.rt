ghost use Rattle.std.specs.Prelude.{MatchResult, ◌≡◌};
ghost use Rattle.rich_text.specs.Forms.{instruction_form};
ghost use Rattle.rich_text.specs.Grammars.{a_form};
ghost use Rattle.rw_parser.specs.Reads.{Fails, a_part};
ghost use Rattle.rw_instruction_words.specs.Starts.{StartsInstruction};
ghost use Rattle.rw_instruction_words.specs.Words.{instruction_of_word};

use crate::tables::{InstructionHead, WordInstruction, instruction_head, word_instruction};
use rw_parser::{FormStart, Parser, ReadError, bad_form};
use rw_types::Instr;

/// How an instruction begins: a word is the whole of it; this project's own.
#[derive(Clone, Copy)]
pub enum InstructionStart {
    Whole(WordInstruction),
    Head(InstructionHead),
}

/// Takes an instruction that is a word off, or a `(` and an instruction's word. An error is the first fault.
pub fn start_instruction(parser: &mut Parser<'_>) -> Result<InstructionStart, ReadError>
    ensures { MatchResult result (StartsInstruction parser.old parser.new) (Fails (a_part (a_form instruction_form)) parser.old) }
{
    match parser.start()? {
        FormStart::Word(word, at) => match word_instruction(&word) {
            Some(instruction) => Ok(InstructionStart::Whole(instruction)),
            None => Err(bad_form(at)),
        },
        FormStart::Head(word, at) => match instruction_head(&word) {
            Some(head) => Ok(InstructionStart::Head(head)),
            None => Err(bad_form(at)),
        },
    }
}

/// An instruction that is one word.
pub fn instruction_of_word(word: WordInstruction) -> Instr
    ensures { result ≡ instruction_of_word word }
{
    match word {
        WordInstruction::Nop => Instr::Nop,
        WordInstruction::Unreachable => Instr::Unreachable,
        WordInstruction::Drop => Instr::Drop,
        WordInstruction::Unit => Instr::Unit,
        WordInstruction::Print => Instr::Print,
        WordInstruction::Return => Instr::Return,
        WordInstruction::CallIndirect => Instr::CallIndirect,
        WordInstruction::Qualify => Instr::Qualify,
        WordInstruction::RecUnfold => Instr::RecUnfold,
        WordInstruction::Ungroup => Instr::Ungroup,
        WordInstruction::RefSplit => Instr::RefSplit,
        WordInstruction::RefJoin => Instr::RefJoin,
        WordInstruction::CapSplit => Instr::CapSplit,
        WordInstruction::CapJoin => Instr::CapJoin,
        WordInstruction::StructFree => Instr::StructFree,
        WordInstruction::ArrayGet => Instr::ArrayGet,
        WordInstruction::ArraySet => Instr::ArraySet,
        WordInstruction::ArrayLen => Instr::ArrayLen,
        WordInstruction::ArrayFree => Instr::ArrayFree,
        WordInstruction::Num(name) => Instr::Num(name),
    }
}
