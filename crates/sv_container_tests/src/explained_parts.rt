//! The explanation of a request from the parts of a configuration, with enough memory.

use std::alloc::Global;
use std::fmt::Display;
use sv_constraints::{Auth, Collection, Constraint, Methods, Rules, Transport};
use sv_mapping::Pattern;
use sv_policy::{ContextPolicy, Policy, explain_parts};
use sv_realm::{MAX_USERS, Realm};
use sv_text::{Listed, NoMemory, Text};

/// A constraint that names no roles precludes everyone (Jakarta Servlet 6.0, section 13.8).
const LINE: &str =
    "denied context=/ path=/admin/x.txt pattern=/admin/* constraint=1 cause=Precluded";

#[test]
fn the_parts_of_a_configuration_explain_a_request(rt: HostRuntime) {
    assert!(rt; matches!(explained(rt.alloc()), Ok(line) if line.as_str() == LINE));
}

fn explained(alloc: Global) -> Result<String, NoMemory> {
    let context = context_of(alloc, both(policy(alloc), nobody(alloc)))?;
    line_of(alloc, &[context])
}

fn line_of(alloc: Global, contexts: &[ContextPolicy]) -> Result<String, NoMemory> {
    let explained = explain_parts(alloc, contexts, "GET", b"/admin/x.txt", None);
    shown(alloc, explained)
}

/// Returns the root context with the constraint and without users.
fn context_of(
    alloc: Global,
    parts: Result<(Policy, Realm), NoMemory>,
) -> Result<ContextPolicy, NoMemory> {
    let (policy, realm) = parts?;
    Ok(ContextPolicy {
        path: Text::from_string(String::new(alloc)),
        policy,
        realm,
    })
}

fn nobody(alloc: Global) -> Result<Realm, NoMemory> {
    let users = Vec::new(alloc);
    if users.len() > MAX_USERS {
        return Err(NoMemory);
    }
    Realm::from_users(alloc, users)
}

fn policy(alloc: Global) -> Result<Policy, NoMemory> {
    let constraints = listed(alloc, constraint(alloc))?;
    let rules = Rules {
        declared: Listed::from_vec(Vec::new(alloc)),
        deny_uncovered: false,
    };
    Policy::compile(alloc, constraints, rules)
}

fn constraint(alloc: Global) -> Result<Constraint, NoMemory> {
    let patterns = listed(alloc, made(Pattern::parse(alloc, "/admin/*")))?;
    let collection = Collection {
        patterns: Listed::from_vec(patterns),
        methods: Methods::All,
    };
    let collections = listed(alloc, Ok(collection))?;
    Ok(Constraint {
        number: 1,
        collections: Listed::from_vec(collections),
        auth: Auth::Roles(Listed::from_vec(Vec::new(alloc))),
        transport: Transport::Absent,
    })
}

/// Returns a list of this value, if there was memory for it.
fn listed<T: Drop>(alloc: Global, value: Result<T, NoMemory>) -> Result<Vec<T>, NoMemory> {
    let mut list = Vec::new(alloc);
    list.push(value?)?;
    Ok(list)
}

/// Returns a value. In this test, running out of memory is the only way to fail.
fn made<T: Drop, E: Drop>(value: Result<T, E>) -> Result<T, NoMemory> {
    match value {
        Ok(value) => Ok(value),
        Err(_) => Err(NoMemory),
    }
}

fn both<A: Drop, B: Drop>(
    one: Result<A, NoMemory>,
    other: Result<B, NoMemory>,
) -> Result<(A, B), NoMemory> {
    Ok((one?, other?))
}

fn shown<T: Display + Drop, E: Drop>(
    alloc: Global,
    value: Result<T, E>,
) -> Result<String, NoMemory> {
    match value {
        Ok(value) => Ok(format!(in alloc; "{value}")?),
        Err(_) => Err(NoMemory),
    }
}
