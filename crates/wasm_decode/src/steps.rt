// A module in the middle of its bytes, and what a byte makes of it.
ghost use Rattle.std.specs.Prelude.{◌≡◌, ◌+◌, ◌-◌, ◌<◌, ◌≤◌, ◌^◌, ℕ, Ok, nat_lt, if◌then◌else◌, length, IsTrue, IsFalse, IsOkAnd};
ghost use Rattle.wasm_reading.specs.declared.fault.DecodeFault.TheVariants.{BadMagic, BadVersion};
ghost use Rattle.wasm_ast.specs.declared.modules.WModule.{WModule};
ghost use Rattle.wasm_decode.specs.Steps.{rest_of_step, sections_left, sized_left, custom_left, content_left, last_behind, custom_step, Advances, Enters, IsTruncated};
ghost use Rattle.wasm_items.specs.LebStates.{LebState};
ghost use Rattle.wasm_decode.specs.CustomSteps.{IsBetween, BeginsCustom, TakesSize};
ghost use Rattle.wasm_contents.specs.Contents.{rest_of_content};

use std::alloc::Global;
use wasm_ast::WModule;
use wasm_contents::Content;
use wasm_items::{Leb32, Progress};
use wasm_reading::{DecodeError, DecodeFault};

/// The magic number and the version (WebAssembly Core Specification 1.0, section 5.5.15).
const PREAMBLE: [u8; 8] = [0x00, 0x61, 0x73, 0x6D, 0x01, 0x00, 0x00, 0x00];

/// The greatest id of a section (section 5.5.2).
const LAST_ID: u8 = 11;

/// What is read next.
#[derive(Drop)]
pub enum Step {
    /// The byte of the preamble with this number.
    Preamble(usize),
    /// The id of a section, or the end.
    Between,
    /// The size of the section with this id.
    Size(u8, Leb32),
    /// A byte of a custom section, of which so many stand behind it.
    Custom(u32),
    /// A byte of the content of a section, of which so many stand behind it.
    Content(u32, Content),
}

fn fault_at(at: u64, fault: DecodeFault) -> DecodeError
    ensures { result ≡ record { at = at; fault = fault } }
{
    DecodeError { at, fault }
}

/// A byte of the preamble, or behind it, where the last section had the id `last`.
pub fn take_preamble(index: usize, last: u8, byte: u8, at: u64) -> Result<Step, DecodeError>
    ensures advances { (m : WModule) → Advances (rest_of_step at last m (Step.Preamble index)) byte at last m result }
    ensures begins { byte ≡ 0 → 8 ≤ index → IsOkAnd result BeginsCustom }
{
    if index >= PREAMBLE.len() {
        return take_id(last, byte, at);
    }
    if byte != PREAMBLE[index] {
        return Err(fault_at(at, preamble_fault(index)));
    }
    if index == 7 {
        return Ok(Step::Between);
    }
    Ok(Step::Preamble(index + 1))
}

/// What is wrong where the byte of the preamble with this number is another one.
fn preamble_fault(index: usize) -> DecodeFault
    ensures { result ≡ (if nat_lt index 4 then BadMagic else BadVersion) }
{
    if index < 4 {
        DecodeFault::BadMagic
    } else {
        DecodeFault::BadVersion
    }
}

/// The id of a section behind one with the id `last`.
pub fn take_id(last: u8, byte: u8, at: u64) -> Result<Step, DecodeError>
    ensures advances { (m : WModule) → Advances (rest_of_step at last m Step.Between) byte at last m result }
    ensures begins { byte ≡ 0 → IsOkAnd result BeginsCustom }
{
    if byte == 0 {
        return Ok(Step::Size(0, Leb32::unsigned()));
    }
    if byte > LAST_ID {
        return Err(fault_at(at, DecodeFault::BadTag));
    }
    if byte <= last {
        return Err(fault_at(at, DecodeFault::BadOrder));
    }
    Ok(Step::Size(byte, Leb32::unsigned()))
}

/// So many bytes of a custom section, of which there may be none.
fn custom(size: u32) -> Step
    ensures rest { (at last : ℕ) (m : WModule) → rest_of_step at last m result ≡ custom_left size last m }
    ensures step { result ≡ custom_step size }
{
    if size == 0 {
        Step::Between
    } else {
        Step::Custom(size - 1)
    }
}

/// A byte of a custom section, which stands for nothing, before so many others.
pub fn take_custom(behind: u32) -> Step
    ensures advances { (b at last : ℕ) (m : WModule) → Advances (rest_of_step at last m (Step.Custom behind)) b at last m (Ok result) }
    ensures step { result ≡ custom_step behind }
{
    custom(behind)
}

/// The id of the last section, behind the size of the one with the id `id`: a custom section has none.
fn id_behind(id: u8, last: u8) -> u8
    ensures { result ≡ last_behind id last }
{
    if id == 0 { last } else { id }
}

/// What is read behind the size of a section, where there are so many functions.
fn enter(alloc: Global, id: u8, size: u32, at: u64, functions: usize) -> Result<Step, DecodeError>
    ensures enters { (last : ℕ) (m : WModule) → length m.funcs ≡ functions → Enters (sized_left id last m size) at (last_behind id last) m result }
    ensures custom { id ≡ 0 → result ≡ Ok (custom_step size) }
{
    if id == 0 {
        return Ok(custom(size));
    }
    if size == 0 {
        return Err(fault_at(at, DecodeFault::BadLength));
    }
    Ok(Step::Content(size - 1, Content::start(alloc, id, functions, at)))
}

/// A byte of the content of a section, before so many others.
pub fn take_content(
    behind: u32,
    content: Content,
    built: &mut WModule,
    byte: u8,
    at: u64,
) -> Result<Step, DecodeError>
    requires { at + 1 < 2 ^ 64 }
    ensures { (last : ℕ) → Advances (content_left (at + (behind + 1)) (rest_of_content built.old content) last) byte at last built.new result }
{
    match content.push(built, byte, at) {
        Ok(Some(content)) => {
            if behind == 0 {
                return Err(fault_at(at + 1, DecodeFault::BadLength));
            }
            Ok(Step::Content(behind - 1, content))
        }
        Ok(None) => {
            if behind == 0 {
                return Ok(Step::Between);
            }
            Err(fault_at(at + 1, DecodeFault::BadLength))
        }
        Err(e) => Err(e),
    }
}

/// A byte at this place. `last` is the id of the last section, and `built` the module so far.
pub fn advance(
    alloc: Global,
    step: Step,
    last: &mut u8,
    built: &mut WModule,
    byte: u8,
    at: u64,
) -> Result<Step, DecodeError>
    requires { at + 1 < 2 ^ 64 }
    ensures advances { Advances (rest_of_step at last.old built.old step) byte at last.new built.new result }
    ensures begins { byte ≡ 0 → IsBetween step → IsOkAnd result BeginsCustom }
    ensures sized { (number : LebState) → step ≡ Step.Size 0 number → TakesSize number byte at result }
    ensures custom { (behind : ℕ) → step ≡ Step.Custom behind → result ≡ Ok (custom_step behind) }
{
    match step {
        Step::Preamble(index) => take_preamble(index, *last, byte, at),
        Step::Between => take_id(*last, byte, at),
        Step::Size(id, number) => take_size(alloc, id, number, last, built, byte, at),
        Step::Custom(behind) => Ok(take_custom(behind)),
        Step::Content(behind, content) => take_content(behind, content, built, byte, at),
    }
}

/// A byte of the size of the section with this id.
fn take_size(
    alloc: Global,
    id: u8,
    number: Leb32,
    last: &mut u8,
    built: &WModule,
    byte: u8,
    at: u64,
) -> Result<Step, DecodeError>
    requires { at + 1 < 2 ^ 64 }
    ensures advances { Advances (rest_of_step at last.old built.now (Step.Size id number)) byte at last.new built.now result }
    ensures sized { id ≡ 0 → TakesSize number byte at result }
{
    match number.push(byte, at)? {
        Progress::More(number) => Ok(Step::Size(id, number)),
        Progress::Done(size) => {
            *last = id_behind(id, *last);
            enter(alloc, id, size, at + 1, built.funcs.len())
        }
    }
}

/// Whether the input may not end here: it may end only behind the preamble or a section.
pub fn wants_a_byte(step: &Step) -> bool
    ensures yes { IsTrue result → (at last : ℕ) (m : WModule) → IsTruncated (rest_of_step at last m step.now) at }
    ensures no { IsFalse result → (at last : ℕ) (m : WModule) → rest_of_step at last m step.now ≡ sections_left last m }
{
    match step {
        Step::Preamble(index) => *index < PREAMBLE.len(),
        Step::Between => false,
        Step::Size(..) => true,
        Step::Custom(..) => true,
        Step::Content(..) => true,
    }
}
