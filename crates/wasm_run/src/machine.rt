ghost use Rattle.std.specs.Prelude.{◌≡◌, [], ◌+◌, ◌^◌, ◌<◌, ◌≤◌, ◌↔◌, IfOk, IfErr, OnErr, IsNone, length, slice_get};
ghost use Rattle.rw_io.specs.States.{NoSinkCountFell};
ghost use Rattle.machine_runs.specs.Runs.{Runs, Stops};
ghost use Rattle.machine_runs.specs.Turns.{Turns};
ghost use Rattle.wasm_starts.specs.Answers.{TellsStart};
ghost use Rattle.wasm_run.specs.Progress.{IsBegun, MayAllocate, ended_of, next_of, steps_of};

use machine_runs::{Outcome, RunError, Steps, Turn, run};
use machine_steps::End;
use rw_io::Sink;
use std::alloc::{AllocError, Global};
use std::marker::Model;
use wasm_first_state::first_state;
use wasm_functions::Environment;
use wasm_machine::advance;
use wasm_run_functions::ModuleFunctions;
use wasm_run_state::State;
use wasm_starts::{StartError, start};
use wasm_validate::Valid;

/// A machine that runs a valid module; clauses see how far it has come.
#[derive(Drop)]
pub struct Machine<'a> {
    functions: ModuleFunctions<'a>,
    trap_code: Option<u32>,
    most_pages: u32,
    state: State<'a>,
    steps: u64,
    ended: Option<End>,
}

impl<'a> Model for Machine<'a> {
    ghost use Rattle.std.specs.Prelude.{◌≡◌, [], length};
    ghost use Rattle.std.specs.Coded.{codes};
    ghost use Rattle.wasm_ast.specs.contracts.instructions.WInstr as instr;
    ghost use Rattle.wasm_typing.specs.Contexts.{context_of};
    ghost use Rattle.wasm_run_state.specs.States.{config_of};
    ghost use Rattle.wasm_machine.specs.Running.{IsRunning};
    ghost use Rattle.wasm_run.specs.Progress.{Progress};

    ghost Value = { Progress };

    ghost coded = { Prim.hlevel (codes, instr.the_row.coded) };

    ghost view = { λ m. record { source = m.functions.environment; config = config_of m.state; steps = m.steps; ended = m.ended } };

    ghost invariant = { λ m. IsRunning m.functions.environment m.trap_code m.most_pages m.state
        × (length (context_of m.functions.environment).globals ≡ length m.functions.environment.globals)
        × (m.functions.environment.memories ≡ [] → length m.state.memory ≡ 0) };
}

impl<'a> Machine<'a> {
    /// A machine of this module before its first step, or why the module does not start: the first import that the host does
    /// not give, then the first segment out of bounds, then a `main` that is not there; nothing is written then.
    pub fn new(alloc: Global, valid: &'a Valid) -> Result<Machine<'a>, StartError>
        ensures begins { IfOk result (λ machine. IsBegun valid.now machine) }
        ensures refused { IfErr result (λ e. TellsStart valid.now e) }
    {
        let _valid_in_profile = valid.module();
        let environment = Environment::new(alloc, valid)?;
        let started = start(alloc, valid, &environment)?;
        let trap_code = environment.trap_code();
        let most_pages = environment.most_pages();
        let functions = ModuleFunctions { environment };
        let state = first_state(
            alloc,
            &functions,
            started.first,
            started.next_call,
            started.memory,
            started.table,
            started.globals,
        )?;
        Ok(Machine {
            functions,
            trap_code,
            most_pages,
            state,
            steps: 0,
            ended: None,
        })
    }

    /// Makes a step, where the machine has not ended; one that has answers its end again, and no step is counted. `AllocError`
    /// leaves the machine as it was, and comes only from a call, a list that is opened, a growth of the memory, or where
    /// the start function may be left: at its end, by a branch or by `return`.
    pub fn step(&mut self) -> Result<Turn, AllocError>
        requires { self.old.steps + 1 < 2 ^ 64 }
        ensures turns { Turns next_of ended_of steps_of self.old result self.new }
        ensures spare { OnErr result (MayAllocate self.old.config) }
    {
        if let Some(end) = self.ended {
            return Ok(Turn::Ended(end));
        }
        let turn = advance(
            &mut self.state,
            &self.functions,
            self.trap_code,
            self.most_pages,
        )?;
        self.steps += 1;
        if let Turn::Ended(end) = turn {
            self.ended = Some(end);
        }
        Ok(turn)
    }

    /// Makes at most so many steps, and puts each printed number as decimal text and a newline, as one piece. `Spent` where after
    /// that many steps the machine has not ended. `Write` and `Stalled` tell the length of the piece that the sink was offered
    /// last: the step that printed was made, and the machine may go on. `Memory` comes from a step, which was not made, or from
    /// the sink, after the step that printed.
    pub fn run<O: Sink>(&mut self, steps: u64, out: &mut O) -> Result<Outcome, RunError>
        requires { self.old.steps + steps < 2 ^ 64 }
        ensures runs { IfOk result (λ outcome. Runs next_of ended_of steps_of steps self.old outcome self.new (O.state out.old) (O.state out.new)) }
        ensures stops { IfErr result (λ error. Stops next_of ended_of steps_of steps self.old error self.new (O.state out.old) (O.state out.new)) }
        ensures counts { NoSinkCountFell (O.state out.old) (O.state out.new) }
    {
        run(self, steps, out)
    }

    /// How many steps were made. It takes no memory.
    pub fn steps(&self) -> u64
        ensures { result ≡ self.now.steps }
    {
        self.steps
    }

    /// The bytes of the memory; there is none where the module has no memory. It takes no memory.
    pub fn bytes(&self) -> &[u8]
        ensures value { result.now ≡ self.now.config.store.memory }
        ensures none { self.now.source.memories ≡ [] → result.now ≡ [] }
    {
        self.state.memory.as_slice()
    }

    /// The value of the global with this number. It takes no memory.
    pub fn global(&self, index: u32) -> Option<u64>
        ensures value { result ≡ slice_get self.now.config.store.globals index }
        ensures none { IsNone result ↔ (length self.now.source.globals ≤ index) }
    {
        self.state.globals.get(index as usize).copied()
    }
}

impl<'a> Steps for Machine<'a> {
    ghost next = { next_of };

    ghost over = { ended_of };

    ghost made = { steps_of };

    fn ended(&self) -> Option<End> {
        self.ended
    }

    fn step(&mut self) -> Result<Turn, AllocError> {
        Machine::step(self)
    }
}
