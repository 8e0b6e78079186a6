ghost use Rattle.std.specs.Prelude.{MatchOption, None, Some, map, option_map, ◌≡◌};
ghost use Rattle.rich_text.specs.FirstVersion.{first_version};
ghost use Rattle.rich_text.specs.Forms.{instruction_form};
ghost use Rattle.rich_text.specs.Reading as definition;
ghost use Rattle.rich_text.specs.Tokens.{same_word};
ghost use Rattle.rw_instruction_words.specs.Words.{head_word, instruction_of_word};

use rw_parser::is_word;
use rw_tokens::Spelling;
use rw_types::{Instr, NumName};

/// Instructions that are one word; this project's own.
#[derive(Clone, Copy)]
pub enum WordInstruction {
    Nop,
    Unreachable,
    Drop,
    Unit,
    Print,
    Return,
    CallIndirect,
    Qualify,
    RecUnfold,
    Ungroup,
    RefSplit,
    RefJoin,
    CapSplit,
    CapJoin,
    StructFree,
    ArrayGet,
    ArraySet,
    ArrayLen,
    ArrayFree,
    Num(NumName),
}

/// The words with which instructions begin whose one immediate is a number without a sign; this project's own.
#[derive(Clone, Copy)]
pub enum IndexHead {
    Br,
    BrIf,
    LocalGet,
    LocalTake,
    LocalSet,
    GlobalGet,
    GlobalSet,
    Coderef,
    StructGet,
    StructSet,
    StructSwap,
}

/// The words with which the other instructions begin that hold no instructions; this project's own.
#[derive(Clone, Copy)]
pub enum PlainHead {
    I32Const,
    I64Const,
    Inst,
    Call,
    RecFold,
    Group,
    MemPack,
    StructMalloc,
    VariantMalloc,
    ArrayMalloc,
    ExistPack,
}

/// The words with which instructions begin that hold instructions; this project's own.
#[derive(Clone, Copy)]
pub enum BlockHead {
    Block,
    Loop,
    If,
    MemUnpack,
    VariantCase,
    ExistUnpack,
}

/// The words with which instructions in parentheses begin; this project's own.
#[derive(Clone, Copy)]
pub enum InstructionHead {
    Index(IndexHead),
    Plain(PlainHead),
    Block(BlockHead),
}

const WORDS: [(&[u8], WordInstruction); 80] = [
    (b"nop", WordInstruction::Nop),
    (b"unreachable", WordInstruction::Unreachable),
    (b"drop", WordInstruction::Drop),
    (b"unit", WordInstruction::Unit),
    (b"print", WordInstruction::Print),
    (b"return", WordInstruction::Return),
    (b"call_indirect", WordInstruction::CallIndirect),
    (b"qualify", WordInstruction::Qualify),
    (b"rec.unfold", WordInstruction::RecUnfold),
    (b"ungroup", WordInstruction::Ungroup),
    (b"ref.split", WordInstruction::RefSplit),
    (b"ref.join", WordInstruction::RefJoin),
    (b"cap.split", WordInstruction::CapSplit),
    (b"cap.join", WordInstruction::CapJoin),
    (b"struct.free", WordInstruction::StructFree),
    (b"array.get", WordInstruction::ArrayGet),
    (b"array.set", WordInstruction::ArraySet),
    (b"array.len", WordInstruction::ArrayLen),
    (b"array.free", WordInstruction::ArrayFree),
    (b"i32.eqz", WordInstruction::Num(NumName::I32Eqz)),
    (b"i32.eq", WordInstruction::Num(NumName::I32Eq)),
    (b"i32.ne", WordInstruction::Num(NumName::I32Ne)),
    (b"i32.lt_s", WordInstruction::Num(NumName::I32LtS)),
    (b"i32.lt_u", WordInstruction::Num(NumName::I32LtU)),
    (b"i32.gt_s", WordInstruction::Num(NumName::I32GtS)),
    (b"i32.gt_u", WordInstruction::Num(NumName::I32GtU)),
    (b"i32.le_s", WordInstruction::Num(NumName::I32LeS)),
    (b"i32.le_u", WordInstruction::Num(NumName::I32LeU)),
    (b"i32.ge_s", WordInstruction::Num(NumName::I32GeS)),
    (b"i32.ge_u", WordInstruction::Num(NumName::I32GeU)),
    (b"i64.eqz", WordInstruction::Num(NumName::I64Eqz)),
    (b"i64.eq", WordInstruction::Num(NumName::I64Eq)),
    (b"i64.ne", WordInstruction::Num(NumName::I64Ne)),
    (b"i64.lt_s", WordInstruction::Num(NumName::I64LtS)),
    (b"i64.lt_u", WordInstruction::Num(NumName::I64LtU)),
    (b"i64.gt_s", WordInstruction::Num(NumName::I64GtS)),
    (b"i64.gt_u", WordInstruction::Num(NumName::I64GtU)),
    (b"i64.le_s", WordInstruction::Num(NumName::I64LeS)),
    (b"i64.le_u", WordInstruction::Num(NumName::I64LeU)),
    (b"i64.ge_s", WordInstruction::Num(NumName::I64GeS)),
    (b"i64.ge_u", WordInstruction::Num(NumName::I64GeU)),
    (b"i32.clz", WordInstruction::Num(NumName::I32Clz)),
    (b"i32.ctz", WordInstruction::Num(NumName::I32Ctz)),
    (b"i32.popcnt", WordInstruction::Num(NumName::I32Popcnt)),
    (b"i32.add", WordInstruction::Num(NumName::I32Add)),
    (b"i32.sub", WordInstruction::Num(NumName::I32Sub)),
    (b"i32.mul", WordInstruction::Num(NumName::I32Mul)),
    (b"i32.div_s", WordInstruction::Num(NumName::I32DivS)),
    (b"i32.div_u", WordInstruction::Num(NumName::I32DivU)),
    (b"i32.rem_s", WordInstruction::Num(NumName::I32RemS)),
    (b"i32.rem_u", WordInstruction::Num(NumName::I32RemU)),
    (b"i32.and", WordInstruction::Num(NumName::I32And)),
    (b"i32.or", WordInstruction::Num(NumName::I32Or)),
    (b"i32.xor", WordInstruction::Num(NumName::I32Xor)),
    (b"i32.shl", WordInstruction::Num(NumName::I32Shl)),
    (b"i32.shr_s", WordInstruction::Num(NumName::I32ShrS)),
    (b"i32.shr_u", WordInstruction::Num(NumName::I32ShrU)),
    (b"i32.rotl", WordInstruction::Num(NumName::I32Rotl)),
    (b"i32.rotr", WordInstruction::Num(NumName::I32Rotr)),
    (b"i64.clz", WordInstruction::Num(NumName::I64Clz)),
    (b"i64.ctz", WordInstruction::Num(NumName::I64Ctz)),
    (b"i64.popcnt", WordInstruction::Num(NumName::I64Popcnt)),
    (b"i64.add", WordInstruction::Num(NumName::I64Add)),
    (b"i64.sub", WordInstruction::Num(NumName::I64Sub)),
    (b"i64.mul", WordInstruction::Num(NumName::I64Mul)),
    (b"i64.div_s", WordInstruction::Num(NumName::I64DivS)),
    (b"i64.div_u", WordInstruction::Num(NumName::I64DivU)),
    (b"i64.rem_s", WordInstruction::Num(NumName::I64RemS)),
    (b"i64.rem_u", WordInstruction::Num(NumName::I64RemU)),
    (b"i64.and", WordInstruction::Num(NumName::I64And)),
    (b"i64.or", WordInstruction::Num(NumName::I64Or)),
    (b"i64.xor", WordInstruction::Num(NumName::I64Xor)),
    (b"i64.shl", WordInstruction::Num(NumName::I64Shl)),
    (b"i64.shr_s", WordInstruction::Num(NumName::I64ShrS)),
    (b"i64.shr_u", WordInstruction::Num(NumName::I64ShrU)),
    (b"i64.rotl", WordInstruction::Num(NumName::I64Rotl)),
    (b"i64.rotr", WordInstruction::Num(NumName::I64Rotr)),
    (b"i32.wrap_i64", WordInstruction::Num(NumName::I32WrapI64)),
    (
        b"i64.extend_i32_s",
        WordInstruction::Num(NumName::I64ExtendI32S),
    ),
    (
        b"i64.extend_i32_u",
        WordInstruction::Num(NumName::I64ExtendI32U),
    ),
];

const HEADS: [(&[u8], InstructionHead); 28] = [
    (b"i32.const", InstructionHead::Plain(PlainHead::I32Const)),
    (b"i64.const", InstructionHead::Plain(PlainHead::I64Const)),
    (b"block", InstructionHead::Block(BlockHead::Block)),
    (b"loop", InstructionHead::Block(BlockHead::Loop)),
    (b"if", InstructionHead::Block(BlockHead::If)),
    (b"br", InstructionHead::Index(IndexHead::Br)),
    (b"br_if", InstructionHead::Index(IndexHead::BrIf)),
    (b"local.get", InstructionHead::Index(IndexHead::LocalGet)),
    (b"local.take", InstructionHead::Index(IndexHead::LocalTake)),
    (b"local.set", InstructionHead::Index(IndexHead::LocalSet)),
    (b"global.get", InstructionHead::Index(IndexHead::GlobalGet)),
    (b"global.set", InstructionHead::Index(IndexHead::GlobalSet)),
    (b"coderef", InstructionHead::Index(IndexHead::Coderef)),
    (b"inst", InstructionHead::Plain(PlainHead::Inst)),
    (b"call", InstructionHead::Plain(PlainHead::Call)),
    (b"rec.fold", InstructionHead::Plain(PlainHead::RecFold)),
    (b"group", InstructionHead::Plain(PlainHead::Group)),
    (b"mem.pack", InstructionHead::Plain(PlainHead::MemPack)),
    (b"mem.unpack", InstructionHead::Block(BlockHead::MemUnpack)),
    (
        b"struct.malloc",
        InstructionHead::Plain(PlainHead::StructMalloc),
    ),
    (b"struct.get", InstructionHead::Index(IndexHead::StructGet)),
    (b"struct.set", InstructionHead::Index(IndexHead::StructSet)),
    (
        b"struct.swap",
        InstructionHead::Index(IndexHead::StructSwap),
    ),
    (
        b"variant.malloc",
        InstructionHead::Plain(PlainHead::VariantMalloc),
    ),
    (
        b"variant.case",
        InstructionHead::Block(BlockHead::VariantCase),
    ),
    (
        b"array.malloc",
        InstructionHead::Plain(PlainHead::ArrayMalloc),
    ),
    (b"exist.pack", InstructionHead::Plain(PlainHead::ExistPack)),
    (
        b"exist.unpack",
        InstructionHead::Block(BlockHead::ExistUnpack),
    ),
];

/// Whether a word is that of an entry.
fn is_entry(word: &Spelling<'_>, entry: &[u8]) -> bool
    ensures { result ≡ same_word entry.now word.now }
{
    is_word(word, entry)
}

/// The entry of a word in a table.
fn look_up<X: Copy>(mut table: &[(&[u8], X)], word: &Spelling<'_>) -> Option<X>
    ensures { result ≡ definition.look_up word.now (map (λ e. (e.0.now, e.1)) table.entry.now) }
{
    while let [entry, rest @ ..] = table {
        if is_entry(word, entry.0) {
            return Some(entry.1);
        }
        table = rest;
    }
    None
}

/// The instruction that a word is.
pub fn word_instruction(word: &Spelling<'_>) -> Option<WordInstruction>
    ensures { option_map instruction_of_word result ≡ definition.look_up word.now (first_version instruction_form).words }
{
    look_up(&WORDS, word)
}

/// The instruction that begins with a word.
pub fn instruction_head(word: &Spelling<'_>) -> Option<InstructionHead>
    ensures { MatchOption result (definition.look_up word.now (first_version instruction_form).heads ≡ None) (λ h. word.now ≡ head_word h) }
{
    look_up(&HEADS, word)
}
