ghost use Rattle.std.specs.Prelude.{◌≡◌};
ghost use Rattle.wasm_ast.specs.declared.modules.WModule.{WModule as ModuleOf};
ghost use Rattle.wasm_execution.specs.Environments.{environment_of, function_at};
ghost use Rattle.wasm_functions.specs.Functions.{IsFunction};
ghost use Rattle.wasm_run_calls.specs.Parts.{IsCallee};

use wasm_frames::Called;
use wasm_functions::{Environment, Function};
use wasm_run_calls::{Callee, Functions};

/// The functions of a valid module; clauses see the module.
#[derive(Drop)]
pub struct ModuleFunctions<'a> {
    pub environment: Environment<'a>,
}

/// What a call of a function with this number is.
fn callee_of<'a>(n: u32, f: &Function<'a>) -> Callee<'a>
    ensures { (m : ModuleOf) → IsFunction m (function_at (environment_of m) n) f.now → IsCallee m n result }
{
    match f.body {
        Some(body) => Callee::Module(Called {
            function: n,
            body: body.instructions,
            params: f.params,
            declared: body.declared,
            room: body.room,
        }),
        None => Callee::Host(f.params),
    }
}

impl<'a> Functions<'a> for ModuleFunctions<'a> {
    ghost source = { λ f. f.environment };

    fn callee(&self, n: u32) -> Callee<'a> {
        match self.environment.function(n) {
            Some(f) => callee_of(n, f),
            None => unreachable!(),
        }
    }

    fn gives(&self, n: u32) -> bool {
        match self.environment.function(n) {
            Some(f) => f.gives,
            None => unreachable!(),
        }
    }

    fn has_type(&self, n: u32, type_index: u32) -> bool {
        match self.environment.function(n) {
            Some(f) => self.environment.has_type(f, type_index),
            None => unreachable!(),
        }
    }
}
