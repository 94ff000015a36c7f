//! Edits of a policy: the answer to each, the number of patterns rebuilt so far, and decisions after it.

use crate::policies::{caller_of, constraint_of, policy_of};
use std::alloc::Global;
use sv_constraints::Constraint;
use sv_policy::{EditFault, NewConstraint, Policy};
use sv_rows::{Asks, Draft, Strays, cell, hold};
use sv_text::NoMemory;

/// The columns: constraints; rules; steps; answer to each step. A step is `append` and a constraint, which `COUNT
/// times` may precede, `withdraw` and a number, or a request, with or without a caller.
const ROWS: &str = r#"
-- section 13.8: a constraint covers from when it is appended until it is withdrawn, and a pattern goes with the last that lists it
manager on /*; manager on /pub/* GET | - | append a on /*,/z > withdraw 1 > GET /q > withdraw 3 > GET /q > GET /z > withdraw 3 | 3 rebuilt 2 > 1 rebuilt 3 > login pattern=/* constraint=3 cause=NeedsCaller > 3 rebuilt 5 > open pattern=- constraint=- cause=NoPattern > open pattern=- constraint=- cause=NoPattern > NoSuch rebuilt 5
a on /x; b on /x      | - | withdraw 1 > GET /x > withdraw 2 > GET /x | 1 rebuilt 1 > login pattern=/x constraint=2 cause=NeedsCaller > 2 rebuilt 2 > open pattern=- constraint=- cause=NoPattern

-- what was merged of a constraint goes with it
a on /x; b on /x      | - | withdraw 1 > GET /x by caller a > GET /x by caller b | 1 rebuilt 1 > denied pattern=/x constraint=2 cause=NoRole > open pattern=/x constraint=2 cause=Role
nobody on /x; a on /x | - | withdraw 1 > GET /x by caller a | 1 rebuilt 1 > open pattern=/x constraint=2 cause=Role
open on /x; a on /x   | - | withdraw 1 > GET /x | 1 rebuilt 1 > login pattern=/x constraint=2 cause=NeedsCaller
a on /x GET; b on /x  | - | withdraw 2 > PUT /x | 2 rebuilt 1 > open pattern=/x constraint=- cause=Uncovered
a on /x               | - | append nobody on /x PUT > PUT /x by caller a > GET /x by caller a | 2 rebuilt 1 > denied pattern=/x constraint=2 cause=Precluded > open pattern=/x constraint=1 cause=Role

-- the declared roles stay
a on /x               | roles b | append * on /y > GET /y by caller b > GET /y by caller a | 2 rebuilt 1 > open pattern=/y constraint=2 cause=Role > denied pattern=/y constraint=2 cause=NoRole

-- numbers rise and are not given again
""                    | - | append a on /x > withdraw 1 > append a on /x > GET /x | 1 rebuilt 1 > 1 rebuilt 2 > 2 rebuilt 3 > login pattern=/x constraint=2 cause=NeedsCaller
7: a on /x            | - | append a on /y > withdraw 7 > withdraw 8 > append a on /x | 8 rebuilt 1 > 7 rebuilt 2 > 8 rebuilt 3 > 9 rebuilt 4

-- of a constraint's patterns the different ones are rebuilt
""                    | - | append a on /x,/y,/x GET and /y,/z PUT | 1 rebuilt 3

-- what is refused changes nothing
a on /x               | - | withdraw 2 > withdraw 0 > GET /x | NoSuch rebuilt 0 > NoSuch rebuilt 0 > login pattern=/x constraint=1 cause=NeedsCaller
18446744073709551615: a on /x | - | append a on /y > GET /y > withdraw 18446744073709551615 > append a on /y | NumberSpent rebuilt 0 > open pattern=- constraint=- cause=NoPattern > 18446744073709551615 rebuilt 1 > NumberSpent rebuilt 1

-- the least number decides, wherever it stands in the list
9: a on /x/*; 4: b on /x/* | - | GET /x > GET /x by caller a > GET /x by caller a,b > GET /x by caller c | login pattern=/x/* constraint=4 cause=NeedsCaller > open pattern=/x/* constraint=9 cause=Role > open pattern=/x/* constraint=4 cause=Role > denied pattern=/x/* constraint=4 cause=NoRole
9: nobody on /x/*; 4: nobody on /x/*; 2: a on /x/* | - | GET /x | denied pattern=/x/* constraint=4 cause=Precluded
9: open on /x/*; 4: open on /x/*; 2: a on /x/* | - | GET /x | open pattern=/x/* constraint=4 cause=Unauthenticated
9: a over integral on /x/*; 4: a over integral on /x/* | - | GET /x by caller a | denied pattern=/x/* constraint=4 cause=Transport
18446744073709551615: a on /x/* | - | GET /x by caller b | denied pattern=/x/* constraint=18446744073709551615 cause=NoRole

-- a constraint lists at most 64 patterns in all its collections, each place in a list counted; at most 1,000 constraints stand
a on /x | - | append b on /p,/p,/p,/p,/p,/p,/p,/p,/p,/p,/p,/p,/p,/p,/p,/p,/p,/p,/p,/p,/p,/p,/p,/p,/p,/p,/p,/p,/p,/p,/p,/p GET and /p,/p,/p,/p,/p,/p,/p,/p,/p,/p,/p,/p,/p,/p,/p,/p,/p,/p,/p,/p,/p,/p,/p,/p,/p,/p,/p,/p,/p,/p,/p,/p PUT | 2 rebuilt 1
a on /x | - | append b on /p,/p,/p,/p,/p,/p,/p,/p,/p,/p,/p,/p,/p,/p,/p,/p,/p,/p,/p,/p,/p,/p,/p,/p,/p,/p,/p,/p,/p,/p,/p,/p GET and /p,/p,/p,/p,/p,/p,/p,/p,/p,/p,/p,/p,/p,/p,/p,/p,/p,/p,/p,/p,/p,/p,/p,/p,/p,/p,/p,/p,/p,/p,/p,/p,/p PUT > GET /p | TooMany rebuilt 0 > open pattern=- constraint=- cause=NoPattern
"" | - | 1000 times append a on /f > append a on /g > withdraw 5 > append a on /g > append a on /g | 1000 rebuilt 1000 > TooMany rebuilt 1000 > 5 rebuilt 1001 > 1001 rebuilt 1002 > TooMany rebuilt 1002
"#;

#[test]
fn edits_change_only_what_they_name(rt: HostRuntime) -> Result<(), Strays> {
    hold(&rt, &[ROWS], &Edits)
}

/// Answers with the results of steps, made in order on one policy.
struct Edits;

impl Asks for Edits {
    const QUESTION: usize = 3;

    fn answer(&self, alloc: Global, row: &str, answer: &mut Vec<u8>) -> Result<(), NoMemory> {
        let mut policy = policy_of(alloc, cell(row, 0), cell(row, 1))?;
        let mut told = Draft::new(alloc);
        for (place, step) in cell(row, 2).split(" > ").enumerate() {
            if place > 0 {
                told.add(" > ");
            }
            if tell(alloc, &mut policy, step, &mut told).is_err() {
                told.fail();
            }
        }
        told.add_to(answer)
    }
}

fn tell(alloc: Global, policy: &mut Policy, step: &str, told: &mut Draft) -> Result<(), NoMemory> {
    if let Some((count, constraint)) = step.split_once(" times append ") {
        let count = count.parse::<u32>().unwrap_or(0);
        return tell_appended(alloc, policy, count, constraint, told);
    }
    if let Some(constraint) = step.strip_prefix("append ") {
        return tell_appended(alloc, policy, 1, constraint, told);
    }
    match step.strip_prefix("withdraw ") {
        Some(number) => {
            tell_withdrawn(alloc, policy, number.parse::<u64>().unwrap_or(0), told);
            Ok(())
        }
        None => tell_decided(alloc, policy, step, told),
    }
}

/// Adds the answer to the last of this number of appends.
fn tell_appended(
    alloc: Global,
    policy: &mut Policy,
    count: u32,
    text: &str,
    told: &mut Draft,
) -> Result<(), NoMemory> {
    let mut outcome = Err(EditFault::NoSuch);
    for _ in 0..count {
        let addition = addition_of(constraint_of(alloc, 0, text)?);
        outcome = policy.append(alloc, addition);
    }
    tell_outcome(outcome, policy.rebuilt(), told);
    Ok(())
}

/// Returns the constraint without its number.
fn addition_of(constraint: Constraint) -> NewConstraint {
    let Constraint {
        collections,
        auth,
        transport,
        ..
    } = constraint;
    NewConstraint {
        collections,
        auth,
        transport,
    }
}

fn tell_withdrawn(alloc: Global, policy: &mut Policy, number: u64, told: &mut Draft) {
    let outcome = match policy.withdraw(alloc, number) {
        Ok(constraint) => Ok(constraint.number),
        Err(fault) => Err(fault),
    };
    tell_outcome(outcome, policy.rebuilt(), told);
}

fn tell_outcome(outcome: Result<u64, EditFault>, rebuilt: u64, told: &mut Draft) {
    match outcome {
        Ok(number) => told.add_shown(&number),
        Err(fault) => told.add_shown(&fault),
    }
    told.add(" rebuilt ");
    told.add_shown(&rebuilt);
}

fn tell_decided(
    alloc: Global,
    policy: &Policy,
    step: &str,
    told: &mut Draft,
) -> Result<(), NoMemory> {
    let (request, caller) = step.split_once(" by ").unwrap_or((step, "-"));
    let caller = caller_of(alloc, caller)?;
    let (method, path) = request.split_once(' ').unwrap_or((request, ""));
    told.add_shown(&policy.decide(method, path, caller.as_ref()).decision);
    Ok(())
}
