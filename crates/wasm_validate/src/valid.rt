//! A valid module.
ghost use Rattle.std.specs.Prelude.{◌≡◌, ◌<◌, length};
ghost use Rattle.wasm_grammar.specs.Profile.{IsInProfile};
ghost use Rattle.wasm_typing.specs.Modules.{IsValid};
ghost use Rattle.wasm_module_checking.specs.Heights.{AreHeights, HasHeight};

use std::marker::Model;
use wasm_ast::{List, WModule};
use wasm_decode::Decoded;

/// A valid module that was read from bytes, with the heights of its codes: `validate` alone makes one.
#[derive(Drop)]
pub struct Valid {
    decoded: Decoded,
    heights: List<u64>,
}

impl Model for Valid {
    ghost use Rattle.wasm_ast.specs.declared.modules.WModule.{WModule};
    ghost use Rattle.wasm_typing.specs.Modules.{IsValid};
    ghost use Rattle.wasm_module_checking.specs.Heights.{AreHeights};
    ghost use Rattle.std.specs.Coded.{codes};
    ghost use Rattle.wasm_ast.specs.contracts.instructions.WInstr as instr;

    ghost Value = { WModule };

    ghost coded = { Prim.hlevel (codes, instr.the_row.coded) };

    ghost view = { λ v. v.decoded };

    ghost invariant = { λ v. IsValid v.decoded × AreHeights v.decoded v.heights };
}

impl Valid {
    pub(crate) fn new(decoded: Decoded, heights: List<u64>) -> Valid
        requires valid { IsValid decoded }
        requires heights { AreHeights decoded heights }
        ensures { result ≡ decoded }
    {
        Valid { decoded, heights }
    }

    /// The module. It is valid, and in this project's profile.
    pub fn module(&self) -> &WModule
        ensures value { result.now ≡ self.now }
        ensures valid { IsValid result.now }
        ensures profile { IsInProfile result.now }
    {
        self.decoded.module()
    }

    /// The height of the code with this number, counted from 0: the greatest number of operands that stand at once in it.
    pub fn height(&self, code: u32) -> u64
        requires { code < length self.now.codes }
        ensures { HasHeight self.now code result }
    {
        self.heights.as_slice()[code as usize]
    }
}
