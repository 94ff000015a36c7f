//! The steps of faults, as the rows of tables write them.

use std::alloc::Global;
use sv_rows::{Draft, cell};
use sv_web::{ExchangeFault, Fault, NoMemory, Step, Text, step_of};

/// Writes the step of a row's fault.
pub fn answer_step(alloc: Global, row: &str, answer: &mut Vec<u8>) -> Result<(), NoMemory> {
    let mut told = Draft::new(alloc);
    match fault_of(alloc, row) {
        Ok(fault) => tell_step(&step_of(alloc, Err(fault)), &mut told),
        Err(_) => told.fail(),
    }
    told.add_to(answer)
}

fn fault_of(alloc: Global, row: &str) -> Result<Fault, NoMemory> {
    match cell(row, 0) {
        "Error" => error_of(alloc, row),
        "Failed" => failure_of(alloc, row),
        "BadLocation" => Ok(Fault::BadLocation),
        "BadCookie" => Ok(Fault::BadCookie),
        name => Ok(Fault::from(refusal_of(name))),
    }
}

fn error_of(alloc: Global, row: &str) -> Result<Fault, NoMemory> {
    let text = Text::copy_of(alloc, cell(row, 2))?;
    Ok(Fault::Error(cell(row, 1).parse::<u16>().unwrap_or(0), text))
}

fn failure_of(alloc: Global, row: &str) -> Result<Fault, NoMemory> {
    let kind = Text::copy_of(alloc, cell(row, 1))?;
    Ok(Fault::Failed(kind, Text::copy_of(alloc, cell(row, 2))?))
}

fn refusal_of(name: &str) -> ExchangeFault {
    match name {
        "TooLarge" => ExchangeFault::TooLarge,
        "BadHeader" => ExchangeFault::BadHeader,
        "NoSession" => ExchangeFault::NoSession,
        _ => ExchangeFault::NoMemory,
    }
}

fn tell_step(step: &Step, told: &mut Draft) {
    match step {
        Step::NoMemory => told.add("NoMemory"),
        Step::Error(code, text) => tell_error(*code, text.as_str(), told),
        Step::Failed(kind, text) => tell_failure(kind.as_str(), text.as_str(), told),
        _ => told.add("another step"),
    }
}

fn tell_error(code: u16, text: &str, told: &mut Draft) {
    told.add("Error | ");
    told.add_shown(&code);
    told.add(" | ");
    told.add(text);
}

fn tell_failure(kind: &str, text: &str, told: &mut Draft) {
    told.add("Failed | ");
    told.add(kind);
    told.add(" | ");
    told.add(text);
}
