//! The words of the number instructions, by one table. The definition is that of `rich_writing`.
#![tactic(auto)]

ghost use Rattle.std.specs.Prelude.{◌≡◌};
ghost use Rattle.rich_writing.specs.Operators.{operator_text};

use rw_types::NumName;

/// The word of a number instruction: its name in WebAssembly (WebAssembly Core Specification 1.0, 6.5.8).
pub fn operator_word(name: NumName) -> &'static [u8]
    ensures { result.now ≡ operator_text name }
{
    match name {
        NumName::I32Eqz => b"i32.eqz",
        NumName::I32Eq => b"i32.eq",
        NumName::I32Ne => b"i32.ne",
        NumName::I32LtS => b"i32.lt_s",
        NumName::I32LtU => b"i32.lt_u",
        NumName::I32GtS => b"i32.gt_s",
        NumName::I32GtU => b"i32.gt_u",
        NumName::I32LeS => b"i32.le_s",
        NumName::I32LeU => b"i32.le_u",
        NumName::I32GeS => b"i32.ge_s",
        NumName::I32GeU => b"i32.ge_u",
        NumName::I64Eqz => b"i64.eqz",
        NumName::I64Eq => b"i64.eq",
        NumName::I64Ne => b"i64.ne",
        NumName::I64LtS => b"i64.lt_s",
        NumName::I64LtU => b"i64.lt_u",
        NumName::I64GtS => b"i64.gt_s",
        NumName::I64GtU => b"i64.gt_u",
        NumName::I64LeS => b"i64.le_s",
        NumName::I64LeU => b"i64.le_u",
        NumName::I64GeS => b"i64.ge_s",
        NumName::I64GeU => b"i64.ge_u",
        NumName::I32Clz => b"i32.clz",
        NumName::I32Ctz => b"i32.ctz",
        NumName::I32Popcnt => b"i32.popcnt",
        NumName::I32Add => b"i32.add",
        NumName::I32Sub => b"i32.sub",
        NumName::I32Mul => b"i32.mul",
        NumName::I32DivS => b"i32.div_s",
        NumName::I32DivU => b"i32.div_u",
        NumName::I32RemS => b"i32.rem_s",
        NumName::I32RemU => b"i32.rem_u",
        NumName::I32And => b"i32.and",
        NumName::I32Or => b"i32.or",
        NumName::I32Xor => b"i32.xor",
        NumName::I32Shl => b"i32.shl",
        NumName::I32ShrS => b"i32.shr_s",
        NumName::I32ShrU => b"i32.shr_u",
        NumName::I32Rotl => b"i32.rotl",
        NumName::I32Rotr => b"i32.rotr",
        NumName::I64Clz => b"i64.clz",
        NumName::I64Ctz => b"i64.ctz",
        NumName::I64Popcnt => b"i64.popcnt",
        NumName::I64Add => b"i64.add",
        NumName::I64Sub => b"i64.sub",
        NumName::I64Mul => b"i64.mul",
        NumName::I64DivS => b"i64.div_s",
        NumName::I64DivU => b"i64.div_u",
        NumName::I64RemS => b"i64.rem_s",
        NumName::I64RemU => b"i64.rem_u",
        NumName::I64And => b"i64.and",
        NumName::I64Or => b"i64.or",
        NumName::I64Xor => b"i64.xor",
        NumName::I64Shl => b"i64.shl",
        NumName::I64ShrS => b"i64.shr_s",
        NumName::I64ShrU => b"i64.shr_u",
        NumName::I64Rotl => b"i64.rotl",
        NumName::I64Rotr => b"i64.rotr",
        NumName::I32WrapI64 => b"i32.wrap_i64",
        NumName::I64ExtendI32S => b"i64.extend_i32_s",
        NumName::I64ExtendI32U => b"i64.extend_i32_u",
    }
}
