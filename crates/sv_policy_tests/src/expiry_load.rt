//! The cost of an expiry that ends no session, among few sessions and among many.

use std::alloc::Global;
use std::rt::Clock;
use std::test::Fail;
use std::time::{Duration, Instant};
use sv_session::Sessions;
use sv_text::NoMemory;

const CALLS: u32 = 100_000;

/// Number of runs. The fastest one counts.
const RUNS: u32 = 5;

/// Seconds after which an idle session expires.
const INTERVAL: u32 = 60;

#[test]
fn an_expiry_that_ends_none_of_six_thousand_costs_at_most_twenty_times_six(
    rt: HostRuntime,
) -> Result<(), Fail> {
    let mut few = opened(rt.alloc(), 6)?;
    let mut many = opened(rt.alloc(), 6_000)?;
    let time_of_few = least_time(&rt, &mut few)?;
    let time_of_many = least_time(&rt, &mut many)?;
    assert!(rt;
        time_of_many / 20 <= time_of_few,
        "{time_of_many:?} against {time_of_few:?}"
    );
    Ok(())
}

/// Opens this number of sessions at the time 0.
fn opened(alloc: Global, count: usize) -> Result<Sessions, NoMemory> {
    let mut sessions = Sessions::new(alloc, count, INTERVAL);
    for _ in 0..count {
        let Ok(_) = sessions.open((0, 0), 0) else {
            return Err(NoMemory);
        };
    }
    Ok(sessions)
}

/// Returns the shortest time of [`CALLS`] calls that end no session. Each call must judge one record, and a call at the
/// deadline must end the first session.
fn least_time<R: Clock>(rt: &R, sessions: &mut Sessions) -> Result<Duration, Fail> {
    let mut least = Duration::MAX;
    for _ in 0..RUNS {
        let start = Instant::now(rt)?;
        let ended = ended_by_calls(sessions);
        least = least.min(start.elapsed(rt)?);
        if ended > 0 {
            return Err("a session ended before its deadline".into());
        }
    }
    if sessions.judged() != u64::from(RUNS).saturating_mul(u64::from(CALLS)) {
        return Err("a call judged another number of records than one".into());
    }
    match sessions.expire(u64::from(INTERVAL)) {
        Some(ended) if ended.number == 1 => Ok(least),
        _ => Err("the first session did not end at its deadline".into()),
    }
}

/// Expires [`CALLS`] times, at each second before the deadline again and again. Returns the number of sessions that
/// ended.
fn ended_by_calls(sessions: &mut Sessions) -> u32 {
    let mut ended = 0u32;
    for call in 0..CALLS {
        let now = u64::from(call % INTERVAL);
        if sessions.expire(now).is_some() {
            ended = ended.saturating_add(1);
        }
    }
    ended
}
