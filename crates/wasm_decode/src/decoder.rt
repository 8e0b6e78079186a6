// The decoder, which is fed pieces.
ghost use Rattle.std.specs.Prelude.{◌≡◌, ◌++◌, ◌+◌, ◌-◌, ◌<◌, ◌≤◌, ◌^◌, length, IsOk, List, [], ℕ, Some, None, Ok, Err, OnOk, IfOk, IfErr, ◌⊎◌};
ghost use Rattle.wasm_reading.specs.declared.fault.DecodeError.{DecodeError};
ghost use Rattle.wasm_items.specs.Residuals.{no_memory};

use crate::decoded::Decoded;
use crate::state::DecoderState;
use std::alloc::Global;
use std::marker::Model;
use wasm_reading::DecodeError;

/// A decoder in the middle of its input. It keeps the module so far, and no copy of the input. Contracts see its state;
/// every module that it may still answer is in this project's profile.
#[derive(Drop)]
pub struct Decoder {
    state: DecoderState,
}

impl Model for Decoder {
    ghost use Rattle.wasm_decode.specs.declared.state.DecoderState.{DecoderState};
    ghost use Rattle.std.specs.Coded.{codes};
    ghost use Rattle.wasm_ast.specs.contracts.instructions.WInstr as instr;

    ghost Value = { DecoderState };

    ghost coded = { Prim.hlevel (codes, instr.the_row.coded) };

    ghost use Rattle.wasm_decode.specs.Decoding.{AnswersInProfile};

    ghost view = { λ d. d.state };

    ghost invariant = { λ d. AnswersInProfile d.state };
}

impl Decoder {
    ghost use Rattle.wasm_decode.specs.CustomSections.{EndsInCustomContent, LiesInCustomSection};
    ghost use Rattle.wasm_decode.specs.Decoding.{answer_of, at_of, custom_left_of, error_of, IsSettled, Resumes, StandsBehind};

    /// A decoder of which nothing was fed. It takes no memory.
    pub fn new(alloc: Global) -> Decoder
        ensures starts { Resumes result [] }
        ensures whole { error_of result ≡ None }
        ensures counted { at_of result ≡ 0 }
        ensures stands { StandsBehind result [] }
    {
        Decoder {
            state: DecoderState::new(alloc),
        }
    }

    /// Takes the next piece of the input. A fault is answered as soon as every input that begins with the bytes so far has
    /// it, and after an error every later call answers that error. A piece that lies in a custom section takes
    /// no memory and has no fault. `Memory` comes also where the input has 2^64 bytes or more.
    pub fn feed(&mut self, piece: &[u8]) -> Result<(), DecodeError>
        ensures ok { OnOk result ((rest : List ℕ) → answer_of self.new rest ≡ answer_of self.old (piece.now ++ rest)) }
        ensures err { IfErr result (λ e. (e ≡ no_memory) ⊎ ((rest : List ℕ) → answer_of self.old (piece.now ++ rest) ≡ Err e)) }
        ensures resumes { OnOk result ((fed : List ℕ) → Resumes self.old fed → Resumes self.new (fed ++ piece.now)) }
        ensures settled { IfErr result (λ e. (fed : List ℕ) → Resumes self.old fed → (e ≡ no_memory) ⊎ IsSettled (fed ++ piece.now) e) }
        ensures undecided { OnOk result ((fed : List ℕ) → Resumes self.old fed → (e : DecodeError) → IsSettled (fed ++ piece.now) e → ⊥) }
        ensures whole { OnOk result (error_of self.new ≡ None) }
        ensures counted { OnOk result (at_of self.new ≡ at_of self.old + length piece.now) }
        ensures kept { IfErr result (λ e. error_of self.new ≡ Some e) }
        ensures again { (e : DecodeError) → error_of self.old ≡ Some e → result ≡ Err e }
        ensures left { OnOk result (length piece.now ≤ custom_left_of self.old → custom_left_of self.new ≡ custom_left_of self.old - length piece.now) }
        ensures custom { error_of self.old ≡ None → length piece.now ≤ custom_left_of self.old → at_of self.old + length piece.now < 2 ^ 64 → IsOk result }
        ensures stands { OnOk result ((fed : List ℕ) → StandsBehind self.old fed → StandsBehind self.new (fed ++ piece.now)) }
        ensures in_content { (fed : List ℕ) (n : ℕ) → StandsBehind self.old fed → EndsInCustomContent fed n → length piece.now ≤ n → length fed + length piece.now < 2 ^ 64 → IsOk result }
        ensures in_custom { (fed : List ℕ) → StandsBehind self.old fed → LiesInCustomSection fed piece.now → length fed + length piece.now < 2 ^ 64 → IsOk result }
    {
        match self.state.error() {
            Some(e) => Err(e),
            None => self.state.take(piece),
        }
    }

    /// The module that the input spells, or its first fault. After an error of `feed` it is that error.
    pub fn finish(self) -> Result<Decoded, DecodeError>
        ensures ok { IfOk result (λ decoded. answer_of self [] ≡ Ok decoded) }
        ensures err { IfErr result (λ e. answer_of self [] ≡ Err e) }
        ensures again { (e : DecodeError) → error_of self ≡ Some e → result ≡ Err e }
    {
        let Decoder { state } = self;
        match state.finish() {
            Ok(module) => Ok(Decoded::new(module)),
            Err(e) => Err(e),
        }
    }
}
