//! The cost of a look-up and of a decision, among few patterns and among many.

use crate::numbered::{add_numbered, finished};
use crate::policies::{patterns_of, policy_of};
use std::alloc::Global;
use std::rt::Clock;
use std::test::Fail;
use std::time::{Duration, Instant};
use sv_constraints::Decision;
use sv_mapping::PatternTable;
use sv_policy::Policy;
use sv_rows::Draft;
use sv_text::NoMemory;

const CALLS: u32 = 100_000;

/// Number of runs. The fastest one counts.
const RUNS: u32 = 5;

#[test]
fn six_thousand_patterns_cost_at_most_twenty_times_six(rt: HostRuntime) -> Result<(), Fail> {
    let (Some(few), Some(many)) = (times(&rt, rt.alloc(), 6), times(&rt, rt.alloc(), 6_000)) else {
        return Err("a path has no match, or there is no time or memory".into());
    };
    let held = many.0 / 20 <= few.0 && many.1 / 20 <= few.1;
    assert!(rt; held);
    Ok(())
}

/// Returns the times of look-ups and of decisions among the patterns `/pN/*`, for the paths `/pN/x` in order.
fn times<R: Clock>(rt: &R, alloc: Global, count: u32) -> Option<(Duration, Duration)> {
    let patterns = numbered(alloc, count, "/*").ok()?;
    let paths = numbered(alloc, count, "/x").ok()?;
    let look_up = time_of_look_ups(rt, alloc, patterns.as_str(), paths.as_str())?;
    let decision = time_of_decisions(rt, alloc, patterns.as_str(), paths.as_str())?;
    Some((look_up, decision))
}

/// Returns the texts `/pN` with this end, separated by commas.
fn numbered(alloc: Global, count: u32, end: &str) -> Result<String, NoMemory> {
    let mut texts = Draft::new(alloc);
    add_numbered(&mut texts, "/p", count, end);
    finished(alloc, texts)
}

fn time_of_look_ups<R: Clock>(
    rt: &R,
    alloc: Global,
    patterns: &str,
    paths: &str,
) -> Option<Duration> {
    let patterns = patterns_of(alloc, patterns, ',').ok()?;
    let table = PatternTable::compile(alloc, patterns.as_slice()).ok()?;
    least_time(rt, &table, paths)
}

fn time_of_decisions<R: Clock>(
    rt: &R,
    alloc: Global,
    patterns: &str,
    paths: &str,
) -> Option<Duration> {
    let mut constraint = Draft::new(alloc);
    constraint.add("a on ");
    constraint.add(patterns);
    let constraint = finished(alloc, constraint).ok()?;
    let policy = policy_of(alloc, constraint.as_str(), "-").ok()?;
    least_time(rt, &policy, paths)
}

/// A function of paths.
trait Called {
    /// Returns whether the path has a best match.
    fn has_match(&self, path: &str) -> bool;
}

impl Called for PatternTable {
    fn has_match(&self, path: &str) -> bool {
        self.lookup(path).best.is_some()
    }
}

impl Called for Policy {
    fn has_match(&self, path: &str) -> bool {
        matches!(self.decide("GET", path, None).decision, Decision::Login(_))
    }
}

/// Returns the shortest time of [`CALLS`] calls, or none if a path has no match.
fn least_time<R: Clock, C: Called>(rt: &R, called: &C, paths: &str) -> Option<Duration> {
    let mut least = Duration::MAX;
    for _ in 0..RUNS {
        let start = Instant::now(rt).ok()?;
        let found = call_all(called, paths);
        least = least.min(start.elapsed(rt).ok()?);
        if found < CALLS {
            return None;
        }
    }
    Some(least)
}

/// Calls with each path in order, again and again, up to [`CALLS`] calls. Stops at a path without a match. Returns the
/// number of matches.
fn call_all<C: Called>(called: &C, paths: &str) -> u32 {
    let mut found = 0u32;
    for _ in 0..CALLS {
        for path in paths.split(',') {
            if found == CALLS || !called.has_match(path) {
                return found;
            }
            found = found.saturating_add(1);
        }
    }
    found
}
