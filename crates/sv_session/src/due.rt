//! The deadlines of records, and their order.

ghost use Rattle.std.specs.Prelude.{◌≡◌};
ghost use Rattle.sv_session.specs.Order.{has_waited, is_before, sooner};

/// A record in the queue, by its last access and its number. All deadlines follow the last access by the same interval,
/// so the order of accesses is that of deadlines.
#[derive(Clone, Copy)]
pub struct Due {
    /// The time of its last access, in seconds.
    pub last_access: u64,
    /// Its number, which orders records with equal deadlines.
    pub number: u64,
}

impl Due {
    /// Returns whether it has an earlier deadline than another, or the same deadline and a lower number.
    pub fn is_before(&self, other: &Due) -> bool
        ensures { result ≡ is_before self.now other.now }
    {
        self.last_access < other.last_access
            || (self.last_access == other.last_access && self.number < other.number)
    }

    /// Returns whether the interval, in seconds, has passed since its last access. An interval of 0 never passes.
    pub fn has_waited(&self, interval: u32, now: u64) -> bool
        ensures { result ≡ has_waited interval now self.now }
    {
        interval > 0 && now.saturating_sub(self.last_access) >= u64::from(interval)
    }
}

/// Returns the record that is first in the order, of two that may be missing.
pub(crate) fn sooner(one: Option<Due>, other: Option<Due>) -> Option<Due>
    ensures { result ≡ sooner one other }
{
    let Some(due) = one else {
        return other;
    };
    let Some(next) = other else {
        return one;
    };
    if next.is_before(&due) { other } else { one }
}
