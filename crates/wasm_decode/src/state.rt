// A decoder in the middle of its input, as a state that the next byte advances.
ghost use Rattle.std.specs.Prelude.{◌≡◌, ◌++◌, ◌∷◌, ◌+◌, ◌-◌, ◌<◌, ◌≤◌, ◌^◌, length, IsOk, List, [], ℕ, Some, None, Ok, Err, OnOk, IfOk, IfErr, ◌⊎◌};
ghost use Rattle.wasm_reading.specs.declared.fault.DecodeError.{DecodeError};
ghost use Rattle.wasm_items.specs.Residuals.{no_memory};

use crate::steps::{Step, advance, wants_a_byte};
use std::alloc::Global;
use std::mem;
use wasm_ast::{List, WModule};
use wasm_reading::{DecodeError, DecodeFault};

/// A decoder in the middle of its input: how far it came, the module so far, and the error that it answered.
#[derive(Drop)]
pub struct DecoderState {
    alloc: Global,
    at: u64,
    last: u8,
    built: WModule,
    step: Step,
    failed: Option<DecodeError>,
}

impl DecoderState {
    ghost use Rattle.wasm_decode.specs.CustomSections.{LiesInCustomSection};
    ghost use Rattle.wasm_decode.specs.Decoding.{answer_of, at_of, built_of, custom_left_of, error_of, Resumes, StandsBehind};

    /// Nothing was fed.
    pub fn new(alloc: Global) -> DecoderState
        ensures starts { Resumes result [] }
        ensures whole { error_of result ≡ None }
        ensures counted { at_of result ≡ 0 }
        ensures stands { StandsBehind result [] }
    {
        DecoderState {
            alloc,
            at: 0,
            last: 0,
            built: WModule {
                types: List::new(alloc),
                imports: List::new(alloc),
                funcs: List::new(alloc),
                tables: List::new(alloc),
                memories: List::new(alloc),
                globals: List::new(alloc),
                exports: List::new(alloc),
                start: None,
                elements: List::new(alloc),
                codes: List::new(alloc),
                segments: List::new(alloc),
            },
            step: Step::Preamble(0),
            failed: None,
        }
    }

    /// The error that was answered, if there was one.
    pub fn error(&self) -> Option<DecodeError>
        ensures { result ≡ error_of self.now }
    {
        self.failed
    }

    /// Takes the next piece of the input, where no error was answered.
    pub fn take(&mut self, piece: &[u8]) -> Result<(), DecodeError>
        requires { error_of self.old ≡ None }
        ensures ok { OnOk result ((rest : List ℕ) → answer_of self.new rest ≡ answer_of self.old (piece.now ++ rest)) }
        ensures whole { OnOk result (error_of self.new ≡ None) }
        ensures err { IfErr result (λ e. (e ≡ no_memory) ⊎ ((rest : List ℕ) → answer_of self.old (piece.now ++ rest) ≡ Err e)) }
        ensures counted { OnOk result (at_of self.new ≡ at_of self.old + length piece.now) }
        ensures kept { IfErr result (λ e. error_of self.new ≡ Some e) }
        ensures left { OnOk result (length piece.now ≤ custom_left_of self.old → custom_left_of self.new ≡ custom_left_of self.old - length piece.now) }
        ensures custom { length piece.now ≤ custom_left_of self.old → at_of self.old + length piece.now < 2 ^ 64 → IsOk result }
        ensures stands { OnOk result ((fed : List ℕ) → StandsBehind self.old fed → StandsBehind self.new (fed ++ piece.now)) }
        ensures in_custom { (fed : List ℕ) → StandsBehind self.old fed → LiesInCustomSection fed piece.now → length fed + length piece.now < 2 ^ 64 → IsOk result }
    {
        for byte in piece {
            self.push(*byte)?;
        }
        Ok(())
    }

    /// Takes a byte.
    fn push(&mut self, byte: u8) -> Result<(), DecodeError>
        requires { error_of self.old ≡ None }
        ensures ok { OnOk result ((rest : List ℕ) → answer_of self.new rest ≡ answer_of self.old (byte ∷ rest)) }
        ensures whole { OnOk result (error_of self.new ≡ None) }
        ensures err { IfErr result (λ e. (e ≡ no_memory) ⊎ ((rest : List ℕ) → answer_of self.old (byte ∷ rest) ≡ Err e)) }
        ensures kept { IfErr result (λ e. error_of self.new ≡ Some e) }
        ensures counted { OnOk result (at_of self.new ≡ at_of self.old + 1) }
        ensures custom { 0 < custom_left_of self.old → at_of self.old + 1 < 2 ^ 64 → IsOk result }
        ensures left { OnOk result (0 < custom_left_of self.old → custom_left_of self.new ≡ custom_left_of self.old - 1) }
        ensures stands { OnOk result ((fed : List ℕ) → StandsBehind self.old fed → StandsBehind self.new (fed ++ byte ∷ [])) }
        ensures in_custom { (fed : List ℕ) → StandsBehind self.old fed → LiesInCustomSection fed (byte ∷ []) → at_of self.old + 1 < 2 ^ 64 → IsOk result }
    {
        if self.at == u64::MAX {
            return self.fail(DecodeError {
                at: 0,
                fault: DecodeFault::Memory,
            });
        }
        let step = mem::replace(&mut self.step, Step::Between);
        match advance(
            self.alloc,
            step,
            &mut self.last,
            &mut self.built,
            byte,
            self.at,
        ) {
            Ok(step) => {
                self.set(step);
                Ok(())
            }
            Err(e) => self.fail(e),
        }
    }

    /// The byte was taken, and this is read next.
    fn set(&mut self, step: Step)
        requires { at_of self.old + 1 < 2 ^ 64 }
        ensures { self.new ≡ record self.old { at = at_of self.old + 1; step = step } }
    {
        self.step = step;
        self.at += 1;
    }

    fn fail(&mut self, e: DecodeError) -> Result<(), DecodeError>
        ensures result { result ≡ Err e }
        ensures kept { error_of self.new ≡ Some e }
    {
        self.failed = Some(e);
        Err(e)
    }

    /// The module that the input spells, or its first fault, or the error that was answered.
    pub fn finish(self) -> Result<WModule, DecodeError>
        ensures ok { IfOk result (λ m. answer_of self [] ≡ Ok m) }
        ensures err { IfErr result (λ e. answer_of self [] ≡ Err e) }
        ensures again { (e : DecodeError) → error_of self ≡ Some e → result ≡ Err e }
    {
        let ending = self.ending();
        ended(self.into_module(), ending)
    }

    /// The module so far.
    fn into_module(self) -> WModule
        ensures { result ≡ built_of self }
    {
        self.built
    }

    /// Whether the input may end here, where it has as many codes as functions.
    fn ending(&self) -> Result<(), DecodeError>
        ensures ok { OnOk result (answer_of self.now [] ≡ Ok (built_of self.now)) }
        ensures err { IfErr result (λ e. answer_of self.now [] ≡ Err e) }
        ensures again { (e : DecodeError) → error_of self.now ≡ Some e → result ≡ Err e }
    {
        match self.failed {
            Some(e) => Err(e),
            None => self.complete(),
        }
    }

    /// The same where no error was answered.
    fn complete(&self) -> Result<(), DecodeError>
        requires { error_of self.now ≡ None }
        ensures ok { OnOk result (answer_of self.now [] ≡ Ok (built_of self.now)) }
        ensures err { IfErr result (λ e. answer_of self.now [] ≡ Err e) }
    {
        if wants_a_byte(&self.step) {
            return Err(DecodeError {
                at: self.at,
                fault: DecodeFault::Truncated,
            });
        }
        if self.built.codes.len() != self.built.funcs.len() {
            return Err(DecodeError {
                at: self.at,
                fault: DecodeFault::CountMismatch,
            });
        }
        Ok(())
    }
}

/// A module, or why there is none.
fn ended(built: WModule, ending: Result<(), DecodeError>) -> Result<WModule, DecodeError>
    ensures ok { IfOk result (λ m. m ≡ built) }
    ensures whole { OnOk result (ending ≡ Ok tt) }
    ensures err { IfErr result (λ e. ending ≡ Err e) }
{
    match ending {
        Ok(()) => Ok(built),
        Err(e) => Err(e),
    }
}
