// The lines that the tool prints.
ghost use Rattle.std.specs.Prelude.{◌≡◌, ◌++◌, Some, None, codes, decimal, string_bytes, IfOk};
ghost use Rattle.rwc_reports.specs.Lines.{missing_line, too_long_line, text_line, wrote_line, read_fault_line, write_fault_line, too_many_section_line, malformed_line, invalid_line, function_text, start_line};
ghost use Rattle.rwc_reports.specs.Runs.{after_line, end_text};

use crate::names;
use itoa::Buffer;
use machine_steps::End;
use std::alloc::{AllocError, Global};

pub fn missing(alloc: Global, file: &str) -> Result<String, AllocError>
    ensures { IfOk result (λ line. string_bytes line ≡ missing_line file.now) }
{
    format!(in alloc; "missing {file}\n")
}

pub fn too_long(alloc: Global, file: &str) -> Result<String, AllocError>
    ensures { IfOk result (λ line. string_bytes line ≡ too_long_line file.now) }
{
    format!(in alloc; "too long {file}\n")
}

pub fn read_fault(alloc: Global, file: &str) -> Result<String, AllocError>
    ensures { IfOk result (λ line. string_bytes line ≡ read_fault_line file.now) }
{
    format!(in alloc; "read fault {file}\n")
}

pub fn write_fault(alloc: Global, left: usize) -> Result<String, AllocError>
    ensures { IfOk result (λ line. string_bytes line ≡ write_fault_line left) }
{
    let mut buffer = Buffer::new();
    let digits = buffer.format(left);
    format!(in alloc; "write fault {digits}\n")
}

pub fn text(
    alloc: Global,
    file: &str,
    line: u32,
    column: u32,
    fault: &str,
) -> Result<String, AllocError>
    ensures { IfOk result (λ text. string_bytes text ≡ text_line file.now line column fault.now) }
{
    let mut line_buffer = Buffer::new();
    let mut column_buffer = Buffer::new();
    let line_digits = line_buffer.format(line);
    let column_digits = column_buffer.format(column);
    format!(in alloc; "text {file} {line_digits}:{column_digits} {fault}\n")
}

pub fn wrote(alloc: Global, name: &str, count: usize) -> Result<String, AllocError>
    ensures { IfOk result (λ line. string_bytes line ≡ wrote_line name.now count) }
{
    let mut buffer = Buffer::new();
    let digits = buffer.format(count);
    format!(in alloc; "wrote {name} {digits} bytes\n")
}

pub fn too_many_section(alloc: Global, id: u8) -> Result<String, AllocError>
    ensures { IfOk result (λ line. string_bytes line ≡ too_many_section_line id) }
{
    let mut buffer = Buffer::new();
    let digits = buffer.format(id);
    format!(in alloc; "too many section {digits}\n")
}

pub fn malformed(alloc: Global, file: &str, at: u64, fault: &str) -> Result<String, AllocError>
    ensures { IfOk result (λ line. string_bytes line ≡ malformed_line file.now at fault.now) }
{
    let mut buffer = Buffer::new();
    let digits = buffer.format(at);
    format!(in alloc; "malformed {file} at {digits} {fault}\n")
}

/// The line of a module that breaks a rule: the function in whose body it is broken, or none, and the place.
pub fn invalid(
    alloc: Global,
    file: &str,
    func: Option<u32>,
    at: u32,
    rule: &str,
) -> Result<String, AllocError>
    ensures { IfOk result (λ line. string_bytes line ≡ invalid_line file.now func at rule.now) }
{
    match func {
        Some(func) => invalid_in(alloc, file, func, at, rule),
        None => invalid_outside(alloc, file, at, rule),
    }
}

fn invalid_in(
    alloc: Global,
    file: &str,
    func: u32,
    at: u32,
    rule: &str,
) -> Result<String, AllocError>
    ensures { IfOk result (λ line. string_bytes line ≡ invalid_line file.now (Some func) at rule.now) }
{
    let mut func_buffer = Buffer::new();
    let mut at_buffer = Buffer::new();
    let func_digits = func_buffer.format(func);
    let at_digits = at_buffer.format(at);
    format!(in alloc; "invalid {file} function {func_digits} at {at_digits} {rule}\n")
}

fn invalid_outside(alloc: Global, file: &str, at: u32, rule: &str) -> Result<String, AllocError>
    ensures { IfOk result (λ line. string_bytes line ≡ invalid_line file.now None at rule.now) }
{
    let mut buffer = Buffer::new();
    let digits = buffer.format(at);
    let function = no_function();
    format!(in alloc; "invalid {file} function {function} at {digits} {rule}\n")
}

// What stands where no function is told.
fn no_function() -> &'static str
    ensures { result.now ≡ function_text None }
{
    "-"
}

/// The line of a module that has an import which the host does not give.
pub fn unknown_import(alloc: Global, file: &str, import: u32) -> Result<String, AllocError>
    ensures { IfOk result (λ line. string_bytes line ≡ start_line file.now (codes "import " ++ decimal import)) }
{
    let mut buffer = Buffer::new();
    let digits = buffer.format(import);
    format!(in alloc; "start {file} import {digits}\n")
}

/// The line of a module that has a segment out of bounds.
pub fn segment_out(alloc: Global, file: &str, segment: u32) -> Result<String, AllocError>
    ensures { IfOk result (λ line. string_bytes line ≡ start_line file.now (codes "segment " ++ decimal segment)) }
{
    let mut buffer = Buffer::new();
    let digits = buffer.format(segment);
    format!(in alloc; "start {file} segment {digits}\n")
}

/// The line of a module that exports no `main`.
pub fn no_main(alloc: Global, file: &str) -> Result<String, AllocError>
    ensures { IfOk result (λ line. string_bytes line ≡ start_line file.now (codes "no main")) }
{
    format!(in alloc; "start {file} no main\n")
}

/// The last line of a run that ended so after so many steps.
pub fn ended(alloc: Global, end: End, steps: u64) -> Result<String, AllocError>
    ensures { IfOk result (λ line. string_bytes line ≡ after_line (end_text end) steps) }
{
    match end {
        End::Value(value) => result(alloc, value, steps),
        End::Trap(trap) => trapped(alloc, names::of_trap(trap), steps),
    }
}

fn result(alloc: Global, value: i64, steps: u64) -> Result<String, AllocError>
    ensures { IfOk result (λ line. string_bytes line ≡ after_line (end_text (End.Value value)) steps) }
{
    let mut value_buffer = Buffer::new();
    let mut steps_buffer = Buffer::new();
    let number = value_buffer.format(value);
    let digits = steps_buffer.format(steps);
    format!(in alloc; "result {number} after {digits} steps\n")
}

fn trapped(alloc: Global, trap: &str, steps: u64) -> Result<String, AllocError>
    ensures { IfOk result (λ line. string_bytes line ≡ after_line (codes "trap " ++ trap.now) steps) }
{
    let mut buffer = Buffer::new();
    let digits = buffer.format(steps);
    format!(in alloc; "trap {trap} after {digits} steps\n")
}

/// The last line of a run that goes on after so many steps.
pub fn spent(alloc: Global, steps: u64) -> Result<String, AllocError>
    ensures { IfOk result (λ line. string_bytes line ≡ after_line (codes "spent") steps) }
{
    let mut buffer = Buffer::new();
    let digits = buffer.format(steps);
    format!(in alloc; "spent after {digits} steps\n")
}
