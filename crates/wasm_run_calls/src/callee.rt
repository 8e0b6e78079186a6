ghost use Rattle.std.specs.Prelude.{◌≡◌, ◌≢◌, None, Some};
ghost use Rattle.wasm_execution.specs.Types.{results_of};
ghost use Rattle.wasm_execution.specs.Environments.{environment_of, function_at, Function};
ghost use Rattle.wasm_levels.specs.Lists.{count_of};
ghost use Rattle.wasm_run_calls.specs.Parts.{IsCallee, is_of_type};

use wasm_frames::Called;

/// A function that is called: of the module, or of the host with so many parameters.
#[derive(Clone, Copy)]
pub enum Callee<'a> {
    Module(Called<'a>),
    Host(usize),
}

/// The functions of a module, as calls and returns look them up (section 4.2.6).
pub trait Functions<'a> {
    ghost use Rattle.wasm_ast.specs.declared.modules.WModule.{WModule};

    /// The module.
    ghost source: { Self → WModule };

    /// The function with this number, for its calls. It takes no memory.
    fn callee(&self, n: u32) -> Callee<'a>
        requires { function_at (environment_of (source self.now)) n ≢ None }
        ensures { IsCallee (source self.now) n result };

    /// Whether the function with this number gives a value. It takes no memory.
    fn gives(&self, n: u32) -> bool
        requires { function_at (environment_of (source self.now)) n ≢ None }
        ensures { (f : Function) → function_at (environment_of (source self.now)) n ≡ Some f → results_of f.ty.result ≡ count_of result };

    /// Whether the function with this number has the type with this index. It takes no memory.
    fn has_type(&self, n: u32, type_index: u32) -> bool
        requires { function_at (environment_of (source self.now)) n ≢ None }
        ensures { result ≡ is_of_type (source self.now) type_index n };
}
