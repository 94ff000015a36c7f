//! The cost of an edit, with many constraints that it does not affect.

use crate::numbered::{add_numbered, finished};
use crate::policies::policy_of;
use std::alloc::Global;
use std::rt::Clock;
use std::test::Fail;
use std::time::{Duration, Instant};
use sv_policy::Policy;
use sv_rows::Draft;
use sv_text::NoMemory;

/// Number of constraints on the same patterns.
const BESIDE: u32 = 500;

const PATTERNS: u32 = 64;

const ROLES: u32 = 100;

/// Number of edits. The fastest one counts.
const EDITS: u32 = 5;

#[test]
fn an_edit_elsewhere_costs_at_most_a_quarter(rt: HostRuntime) -> Result<(), Fail> {
    let constraints = constraints(rt.alloc())?;
    let mut policy = policy_of(rt.alloc(), constraints.as_str(), "-")?;
    let elsewhere = least_withdrawal(&rt, rt.alloc(), &mut policy, BESIDE)?;
    let among = least_withdrawal(&rt, rt.alloc(), &mut policy, 0)?;
    assert!(rt; elsewhere <= among / 4, "{elsewhere:?} against {among:?}");
    Ok(())
}

/// Returns constraints on the same patterns, followed by one constraint on its own pattern for each edit. All have the
/// same roles.
fn constraints(alloc: Global) -> Result<String, NoMemory> {
    let mut text = Draft::new(alloc);
    for number in 0..BESIDE + EDITS {
        if number > 0 {
            text.add("; ");
        }
        add_numbered(&mut text, "r", ROLES, "");
        text.add(" on ");
        if number < BESIDE {
            add_numbered(&mut text, "/p", PATTERNS, "");
        } else {
            text.add("/own/");
            text.add_shown(&number);
        }
    }
    finished(alloc, text)
}

/// Withdraws the [`EDITS`] constraints that follow this number of constraints, and returns the shortest time.
fn least_withdrawal<R: Clock>(
    rt: &R,
    alloc: Global,
    policy: &mut Policy,
    behind: u32,
) -> Result<Duration, Fail> {
    let mut least = Duration::MAX;
    for place in 1..=EDITS {
        let number = u64::from(behind).saturating_add(u64::from(place));
        let start = Instant::now(rt)?;
        let withdrawn = policy.withdraw(alloc, number)?;
        least = least.min(start.elapsed(rt)?);
        if withdrawn.number != number {
            return Err("another constraint was withdrawn".into());
        }
    }
    Ok(least)
}
