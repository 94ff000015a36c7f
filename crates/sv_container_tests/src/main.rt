//! Tests of containers: failed starts, events of connections, explanations after edits, and counts of calls. They have
//! enough memory, so that a body that always returns `NoMemory` (`always_no_memory`, the only wrong body that no contract
//! rejects) fails in every row. Further tests cover parts that no run of the program exercises: random words,
//! deployments, commands on failing streams, and the parts of a configuration.
//!
//! The program takes one container through the stored run and another one through a login. It prints for each whether
//! its requests were answered or where memory ran out, or the law that was broken. Its exit status is 0 if all requests
//! were answered, 3 if memory ran out and no law was broken, and 4 otherwise. With enough memory it shows that both runs
//! end. With a library that refuses allocations it shows what follows a refusal (`bench/refused_components`).
#![tactic(auto)]

#[cfg(test)]
mod broken_streams;
#[cfg(test)]
mod calls;
#[cfg(test)]
mod configurations;
#[cfg(test)]
mod connections;
#[cfg(test)]
mod containers;
mod counted_components;
mod deployments;
mod descriptors;
#[cfg(test)]
mod events;
#[cfg(test)]
mod explained_parts;
#[cfg(test)]
mod happenings;
mod outcome;
mod results;
#[cfg(test)]
mod saved_codes;
#[cfg(test)]
mod saved_files;
#[cfg(test)]
mod starts;
#[cfg(test)]
mod stores;
mod visits;
#[cfg(test)]
mod words;

use outcome::Outcome;
use std::process::ExitCode;
use visits::{outcome_of_login, outcome_of_stored_run};

fn main(rt: HostRuntime) -> ExitCode {
    let stored = outcome_of_stored_run(rt.alloc());
    let login = outcome_of_login(rt.alloc());
    // If standard output cannot be written, the exit status still reports the outcomes.
    let _ = println!(rt; "stored run: {}", stored.text());
    let _ = println!(rt; "login: {}", login.text());
    status_of(stored, login)
}

fn status_of(stored: Outcome, login: Outcome) -> ExitCode {
    ExitCode::from(stored.status().max(login.status()))
}
