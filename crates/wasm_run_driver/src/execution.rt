//! What a line is answered with.
ghost use Rattle.std.specs.Prelude.{◌≡◌};

use crate::answer::{Ending, Refusal};
use rw_io::{MemSink, OsSink};
use std::alloc::Global;
use std::io;
use wasm_decode::decode;
use wasm_run::{Machine, Outcome, RunError, Turn};
use wasm_validate::{Valid, validate};

/// How a line asks for a run.
#[derive(Clone, Copy)]
enum Manner {
    Run,
    Step,
    Look,
}

/// Answers a line.
pub fn execute(rt: &HostRuntime, line: &str) -> io::Result<()> {
    if let Some(case) = line.strip_prefix("step ") {
        return answer(rt, Manner::Step, case);
    }
    if let Some(case) = line.strip_prefix("sink ") {
        return answer_into(rt, case);
    }
    match line.strip_prefix("look ") {
        Some(case) => answer(rt, Manner::Look, case),
        None => answer(rt, Manner::Run, line),
    }
}

fn answer(rt: &HostRuntime, manner: Manner, case: &str) -> io::Result<()> {
    let refusal = match read(rt.alloc(), case) {
        Ok((steps, valid)) => match Machine::new(rt.alloc(), &valid) {
            Ok(machine) => return run_in(rt, manner, machine, steps),
            Err(error) => Refusal::NotStarted(error),
        },
        Err(refusal) => refusal,
    };
    println!(rt; "{refusal}")
}

/// The number of steps and the module of a case.
fn read(alloc: Global, case: &str) -> Result<(u64, Valid), Refusal> {
    let Some((steps, binary)) = case.split_once(' ') else {
        return Err(Refusal::Unread);
    };
    let Ok(steps) = steps.parse::<u64>() else {
        return Err(Refusal::Unread);
    };
    let Ok(bytes) = hex::decode(alloc, binary) else {
        return Err(Refusal::Unread);
    };
    let decoded = match decode(alloc, &bytes) {
        Ok(decoded) => decoded,
        Err(error) => return Err(Refusal::Malformed(error)),
    };
    match validate(alloc, decoded) {
        Ok(valid) => Ok((steps, valid)),
        Err(error) => Err(Refusal::Invalid(error)),
    }
}

/// Runs a machine so many steps, and tells how it ended.
fn run_in(rt: &HostRuntime, manner: Manner, machine: Machine<'_>, steps: u64) -> io::Result<()>
    requires { machine.steps ≡ 0 }
{
    let mut machine = machine;
    let outcome = match manner {
        Manner::Step => step_through(rt, &mut machine, steps)?,
        _ => machine.run(steps, &mut OsSink::new(rt.stdout())),
    };
    let ending = Ending {
        outcome,
        steps: machine.steps(),
    };
    println!(rt; "{ending}")?;
    if let Manner::Look = manner {
        look(rt, &machine)?;
    }
    Ok(())
}

/// Makes so many steps, one after another.
fn step_through(
    rt: &HostRuntime,
    machine: &mut Machine<'_>,
    steps: u64,
) -> io::Result<Result<Outcome, RunError>>
    requires { machine.old.steps ≡ 0 }
{
    for _ in 0..steps {
        match machine.step() {
            Ok(Turn::Went) => {}
            Ok(Turn::Printed(number)) => println!(rt; "{number}")?,
            Ok(Turn::Ended(end)) => return Ok(Ok(Outcome::Ended(end))),
            Err(_) => return Ok(Err(RunError::Memory)),
        }
    }
    Ok(Ok(Outcome::Spent))
}

/// Answers a line whose run puts its lines into a sink in memory, of which one put fails and which takes so many bytes a put.
fn answer_into(rt: &HostRuntime, case: &str) -> io::Result<()> {
    let Some((sink, case)) = read_sink(rt.alloc(), case) else {
        return println!(rt; "{}", Refusal::Unread);
    };
    let refusal = match read(rt.alloc(), case) {
        Ok((steps, valid)) => match Machine::new(rt.alloc(), &valid) {
            Ok(machine) => return run_into(rt, machine, sink, steps),
            Err(error) => Refusal::NotStarted(error),
        },
        Err(refusal) => refusal,
    };
    println!(rt; "{refusal}")
}

/// The sink of a case, and what stands behind it.
fn read_sink(alloc: Global, case: &str) -> Option<(MemSink, &str)> {
    let (fails, case) = case.split_once(' ')?;
    let (most, case) = case.split_once(' ')?;
    let mut calls = Vec::new(alloc);
    calls.push(fails.parse::<u64>().ok()?).ok()?;
    let most = most.parse::<u32>().ok()?;
    Some((MemSink::new(alloc, calls, most as usize), case))
}

/// Runs a machine so many steps in all; behind a fault of the sink the run is taken up again, at most three times. Each way that
/// a call ended is told, and then the bytes that the sink took.
fn run_into(rt: &HostRuntime, machine: Machine<'_>, sink: MemSink, steps: u64) -> io::Result<()> {
    let mut machine = machine;
    let mut sink = sink;
    for _ in 0..4 {
        let left = steps.saturating_sub(machine.steps());
        let outcome = machine.run(left, &mut sink);
        let is_over = outcome.is_ok();
        let ending = Ending {
            outcome,
            steps: machine.steps(),
        };
        println!(rt; "{ending}")?;
        if is_over {
            break;
        }
    }
    print!(rt; "took")?;
    for byte in sink.bytes() {
        print!(rt; " {byte}")?;
    }
    println!(rt; "")
}

/// Tells the memory and the globals.
fn look(rt: &HostRuntime, machine: &Machine<'_>) -> io::Result<()> {
    let bytes = machine.bytes();
    print!(rt; "bytes {}", bytes.len())?;
    for (at, byte) in bytes.iter().enumerate() {
        if *byte != 0 {
            print!(rt; " {at}:{byte}")?;
        }
    }
    print!(rt; "\nglobals")?;
    for index in 0..u32::MAX {
        match machine.global(index) {
            Some(value) => print!(rt; " {value}")?,
            None => break,
        }
    }
    println!(rt; "")
}
