//! The effects of the exported functions on an engine.

ghost use Rattle.std.specs.Prelude.{Err, IfErr, IfOk, Ok, length, ◌≡◌, ◌≢◌};
ghost use Rattle.sv_policy_c.specs.Answer.{IsPut, IsUntouched};
ghost use Rattle.sv_policy_c.specs.Deciding as spec;
ghost use Rattle.sv_policy_c.specs.Engine.{engine_of, explained};
ghost use Rattle.sv_policy_c.specs.Uncovered.{Lists, uncovered_in};
ghost use Rattle.sv_program.specs.declared.command_fault.CommandFault.TheVariants.{Descriptor};

use crate::engine::Engine;
use crate::gaps::uncovered;
use crate::status::Status;
use std::alloc::Global;
use std::str;
use sv_descriptor::{DescriptorFault, ReadFault};
use sv_policy::{ExplainFault, Explanation};
use sv_program::{CommandFault, FileFault};
use sv_text::{Listed, Text};

/// Writes the decision on a request.
pub(crate) fn decide(
    alloc: Global,
    engine: &Engine,
    method: &[u8],
    target: &[u8],
    answer: &mut [u8],
    length: &mut usize,
) -> Status
    ensures said { spec.WritesAnswer (explained engine.now method.now target.now) answer.old answer.new length.new result }
    ensures text { spec.CallsNoText method.now result }
    ensures room { spec.WritesForAnswer answer.old answer.new length.old length.new result }
{
    let Ok(method) = str::from_utf8(method) else {
        return Status::NotText;
    };
    match engine.explain(alloc, method, target) {
        Ok(explanation) => write_explanation(alloc, &explanation, answer, length),
        Err(ExplainFault::BadMethod) => Status::Method,
        Err(ExplainFault::NoSuchUser) => Status::Nothing,
        Err(ExplainFault::NoMemory) => Status::NoMemory,
    }
}

fn write_explanation(
    alloc: Global,
    explanation: &Explanation,
    answer: &mut [u8],
    length: &mut usize,
) -> Status
    ensures said { spec.WritesAnswer (Ok explanation.now) answer.old answer.new length.new result }
    ensures text { result ≢ Status.NotText }
    ensures room { spec.WritesForAnswer answer.old answer.new length.old length.new result }
{
    match format!(in alloc; "{explanation}") {
        Ok(text) => written(put(answer, length, text.as_str())),
        Err(_) => Status::NoMemory,
    }
}

/// Returns the status of an answer that was written or did not fit.
fn written(is_whole: bool) -> Status
    ensures { result ≡ spec.written is_whole }
{
    if is_whole {
        Status::Written
    } else {
        Status::Short
    }
}

/// Reads the engine of a context with this path and this descriptor, or writes the descriptor's fault.
pub(crate) fn open(
    alloc: Global,
    path: &[u8],
    descriptor: &[u8],
    answer: &mut [u8],
    length: &mut usize,
) -> Result<Box<Engine>, Status>
    ensures opened { IfOk result (λ engine. engine_of path.now descriptor.now ≡ Ok engine.value) }
    ensures refused { IfErr result (spec.RefusesDescriptor (engine_of path.now descriptor.now) answer.old answer.new length.new) }
    ensures text { IfErr result (spec.CallsNoTexts path.now descriptor.now) }
    ensures room { IfErr result (spec.WritesForFault answer.old answer.new length.old length.new) }
    ensures room_kept { IfOk result (λ _. IsUntouched answer.old answer.new length.old length.new) }
{
    let Ok(path) = str::from_utf8(path) else {
        return Err(Status::NotText);
    };
    let Ok(descriptor) = str::from_utf8(descriptor) else {
        return Err(Status::NotText);
    };
    match Engine::read(alloc, path, descriptor) {
        Ok(engine) => boxed(alloc, engine),
        Err(ReadFault::Fault(fault)) => Err(write_fault(alloc, &fault, answer, length)),
        Err(ReadFault::NoMemory) => Err(Status::NoMemory),
    }
}

fn boxed(alloc: Global, engine: Engine) -> Result<Box<Engine>, Status>
    ensures held { IfOk result (λ boxed. boxed.value ≡ engine) }
    ensures refused { IfErr result (λ status. status ≡ Status.NoMemory) }
{
    match Box::new(alloc, engine) {
        Ok(boxed) => Ok(boxed),
        Err(_) => Err(Status::NoMemory),
    }
}

fn write_fault(
    alloc: Global,
    fault: &DescriptorFault,
    answer: &mut [u8],
    length: &mut usize,
) -> Status
    ensures said { spec.RefusesDescriptor (Err fault.now) answer.old answer.new length.new result }
    ensures text { result ≢ Status.NotText }
    ensures room { spec.WritesForFault answer.old answer.new length.old length.new result }
{
    match format!(in alloc; "{fault}") {
        Ok(text) => refused(put(answer, length, text.as_str())),
        Err(_) => Status::NoMemory,
    }
}

/// Returns the status of a fault that was written or did not fit.
fn refused(is_whole: bool) -> Status
    ensures { result ≡ spec.refused is_whole }
{
    if is_whole {
        Status::Fault
    } else {
        Status::Short
    }
}

/// Sets a caller that has no roles, or no caller.
pub(crate) fn set_caller(alloc: Global, engine: &mut Engine, is_known: bool)
    ensures { engine.new ≡ spec.with_caller is_known engine.old }
{
    engine.caller = if is_known {
        Some(Listed::from_vec(Vec::new(alloc)))
    } else {
        None
    };
}

/// Adds a role to the caller, if there is one.
pub(crate) fn add_role(alloc: Global, engine: &mut Engine, role: &[u8]) -> Status
    ensures { spec.AddsRole role.now engine.old engine.new result }
{
    let Ok(role) = str::from_utf8(role) else {
        return Status::NotText;
    };
    let Ok(role) = Text::copy_of(alloc, role) else {
        return Status::NoMemory;
    };
    let Some(roles) = engine.caller.take() else {
        return Status::Nothing;
    };
    let mut roles = roles.into_vec();
    let pushed = roles.push(role).is_ok();
    engine.caller = Some(Listed::from_vec(roles));
    if pushed {
        Status::Written
    } else {
        Status::NoMemory
    }
}

/// Writes the methods that the descriptor leaves uncovered, or the descriptor's fault.
pub(crate) fn list_uncovered(
    alloc: Global,
    path: &[u8],
    descriptor: &[u8],
    answer: &mut [u8],
    length: &mut usize,
) -> Status
    ensures said { Lists (uncovered_in path.now descriptor.now) answer.old answer.new length.new result }
    ensures text { spec.CallsNoTexts path.now descriptor.now result }
    ensures room { spec.WritesForAnswer answer.old answer.new length.old length.new result }
{
    let Ok(path) = str::from_utf8(path) else {
        return Status::NotText;
    };
    let Ok(descriptor) = str::from_utf8(descriptor) else {
        return Status::NotText;
    };
    match uncovered(alloc, path, descriptor) {
        Ok(lines) => list_lines(lines.as_str(), answer, length),
        Err(CommandFault::Descriptor { context, fault }) => {
            list_fault(alloc, context.as_str(), &fault, answer, length)
        }
        Err(_) => Status::NoMemory,
    }
}

fn list_lines(lines: &str, answer: &mut [u8], length: &mut usize) -> Status
    ensures said { Lists (Ok lines.now) answer.old answer.new length.new result }
    ensures text { result ≢ Status.NotText }
    ensures room { spec.WritesForAnswer answer.old answer.new length.old length.new result }
{
    written(put(answer, length, lines))
}

/// Writes the fault of the descriptor of the context at this path.
fn list_fault(
    alloc: Global,
    _context: &str,
    found: &FileFault,
    answer: &mut [u8],
    length: &mut usize,
) -> Status
    ensures said { Lists (Err (Descriptor _context.now found.now)) answer.old answer.new length.new result }
    ensures text { result ≢ Status.NotText }
    ensures room { spec.WritesForAnswer answer.old answer.new length.old length.new result }
{
    let fault = found.fault();
    match format!(in alloc; "{fault}") {
        Ok(text) => refused(put(answer, length, text.as_str())),
        Err(_) => Status::NoMemory,
    }
}

/// Writes the text to the front of the buffer if it fits, and returns whether it does. Sets the length in any case. The
/// bytes after the text are unchanged.
pub(crate) fn put(answer: &mut [u8], length: &mut usize, text: &str) -> bool
    ensures { IsPut text.now answer.old answer.new length.new result }
{
    *length = text.len();
    if answer.len() < text.len() {
        return false;
    }
    answer[..text.len()].copy_from_slice(text.as_bytes());
    true
}
