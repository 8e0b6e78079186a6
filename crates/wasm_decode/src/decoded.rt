// A module that was read from bytes.
ghost use Rattle.std.specs.Prelude.{◌≡◌};
ghost use Rattle.wasm_grammar.specs.Profile.{IsInProfile};

use std::marker::Model;
use wasm_ast::WModule;

/// A module that was read from bytes: only a decoder makes one, and it is in this project's profile.
#[derive(Drop)]
pub struct Decoded {
    module: WModule,
}

impl Model for Decoded {
    ghost use Rattle.wasm_ast.specs.declared.modules.WModule.{WModule};
    ghost use Rattle.wasm_grammar.specs.Profile.{IsInProfile};
    ghost use Rattle.std.specs.Coded.{codes};
    ghost use Rattle.wasm_ast.specs.contracts.instructions.WInstr as instr;

    ghost Value = { WModule };

    ghost coded = { Prim.hlevel (codes, instr.the_row.coded) };

    ghost view = { λ d. d.«module» };

    ghost invariant = { λ d. IsInProfile d.«module» };
}

impl Decoded {
    pub(crate) fn new(module: WModule) -> Decoded
        requires { IsInProfile «module» }
        ensures { result ≡ «module» }
    {
        Decoded { module }
    }

    /// The module. It is in this project's profile: as many codes as functions, numbers within their fields, and blocks
    /// that nest at most 1,000 deep, among others.
    pub fn module(&self) -> &WModule
        ensures value { result.now ≡ self.now }
        ensures profile { IsInProfile result.now }
    {
        &self.module
    }
}
