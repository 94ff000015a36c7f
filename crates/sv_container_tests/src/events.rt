//! Events of connections, edits, and explanations.

use crate::containers::{Does, answer_with};
use crate::deployments::TestContainer;
use crate::happenings::step;
use crate::results::made;
use std::alloc::Global;
use std::fmt::Display;
use sv_constraints::{Auth, Collection, Methods, Transport};
use sv_mapping::Pattern;
use sv_policy::{Edit, Explanation, NewConstraint};
use sv_rows::{Asks, Draft, Strays, cell, hold};
use sv_run::{Happening, Reaction};
use sv_text::{Listed, NoMemory};

/// Answers with the results of events, separated by `, `.
struct Events;

impl Does for Events {
    fn act(
        &self,
        alloc: Global,
        row: &str,
        container: &mut TestContainer,
        told: &mut Draft,
        _entries: &mut Draft,
    ) {
        for event in cell(row, 1).split(", ") {
            if !told.is_empty() {
                told.add(", ");
            }
            take(alloc, event, container, told);
        }
    }
}

impl Asks for Events {
    const QUESTION: usize = 2;

    fn answer(&self, alloc: Global, row: &str, answer: &mut Vec<u8>) -> Result<(), NoMemory> {
        answer_with(alloc, row, self, answer)
    }
}

/// Handles an event of a row: `withdraw` with a number, `many` with the number of connections to open, `append`, or
/// `explain` for a request for `/admin/x` from the user with the role a. All others are handled by [`step`].
fn take(alloc: Global, event: &str, container: &mut TestContainer, told: &mut Draft) {
    let (name, number) = event.split_once(' ').unwrap_or((event, ""));
    let number = number.parse::<u64>().unwrap_or(0);
    match name {
        "explain" => tell_either(container.explain("GET", b"/admin/x", Some("ann")), told),
        "append" => append(alloc, container, told),
        "withdraw" => edit_root(&Edit::Withdraw(number), container, told),
        "many" => open_many(number, container, told),
        _ => tell_either(step(alloc, event, container), told),
    }
}

fn append(alloc: Global, container: &mut TestContainer, told: &mut Draft) {
    match addition(alloc) {
        Ok(addition) => edit_root(&Edit::Append(addition), container, told),
        Err(NoMemory) => told.fail(),
    }
}

fn edit_root(edit: &Edit, container: &mut TestContainer, told: &mut Draft) {
    tell_either(container.step(Happening::Edit { context: "", edit }), told);
}

/// Returns a constraint on two collections that requires a confidential connection.
fn addition(alloc: Global) -> Result<NewConstraint, NoMemory> {
    let mut collections = Vec::new(alloc);
    collections.push(collection(alloc, "/other")?)?;
    collections.push(collection(alloc, "/admin/*")?)?;
    Ok(NewConstraint {
        collections: Listed::from_vec(collections),
        auth: Auth::Absent,
        transport: Transport::Confidential,
    })
}

fn collection(alloc: Global, pattern: &str) -> Result<Collection, NoMemory> {
    let mut patterns = Vec::new(alloc);
    patterns.push(made(Pattern::parse(alloc, pattern))?)?;
    Ok(Collection {
        patterns: Listed::from_vec(patterns),
        methods: Methods::All,
    })
}

/// Opens connections from 1 to this number, and adds the result of the last one.
fn open_many(number: u64, container: &mut TestContainer, told: &mut Draft) {
    for connection in 1..number {
        let_go(container.step(Happening::Opened { connection }));
    }
    let last = Happening::Opened { connection: number };
    tell_either(container.step(last), told);
}

fn let_go<T: Drop>(_value: T) {}

/// A value that can be shown.
trait Tells {
    /// Adds the value.
    fn tell(&self, told: &mut Draft);
}

/// Adds a value, or the reason why there is none, and drops it.
fn tell_either<T: Tells + Drop, E: Display + Drop>(value: Result<T, E>, told: &mut Draft) {
    match value {
        Ok(value) => value.tell(told),
        Err(fault) => told.add_shown(&fault),
    }
}

impl Tells for Reaction {
    fn tell(&self, told: &mut Draft) {
        match &self.edited {
            None => told.add(if self.closes { "closes" } else { "goes on" }),
            Some(Ok(number)) => told.add_shown(number),
            Some(Err(fault)) => told.add_shown(fault),
        }
    }
}

impl Tells for Explanation {
    fn tell(&self, told: &mut Draft) {
        told.add_shown(self);
    }
}

/// The columns: deployments; events; result of each, and the number of contexts whose components were returned.
const ROWS: &str = r#"
-- a connection is known from when it is opened until it has ended or is lost
who@ | open 1, send 1 x, end 1, end 1            | goes on, goes on, closes, BadConnection        | 1
who@ | open 1, lost 1, lost 1                    | goes on, goes on, BadConnection                | 1
who@ | open 1, end 1, open 1, lost 1, open 1     | goes on, closes, goes on, goes on, goes on     | 1
-- a number that is known is not opened
who@ | open 1, open 1, end 1                     | goes on, BadConnection, closes                 | 1
""   | open 0, open 18446744073709551615, open 0 | goes on, goes on, BadConnection                | 0
-- one that is not known has no events
who@ | send 1 x, end 1, lost 1, tick 1           | BadConnection, BadConnection, BadConnection, goes on | 1
who@ | open 1, send 2 x, end 2, lost 2, send 1 x | goes on, BadConnection, BadConnection, BadConnection, goes on | 1
-- 1,024 may be known at a time
who@ | many 1024, open 1025                      | goes on, TooManyConnections                    | 1
who@ | many 1025, send 1024 x, send 1025 x       | TooManyConnections, goes on, BadConnection     | 1
who@ | many 1024, open 7, end 7, open 1025, open 7 | goes on, BadConnection, closes, goes on, TooManyConnections | 1
-- Jakarta Servlet 6.0, section 13.8: an explanation is that of the constraints as they stand
edited@ | explain, withdraw 1, explain, withdraw 1 | open context=/ path=/admin/x pattern=/admin/* constraint=1 cause=Role, 1, open context=/ path=/admin/x pattern=- constraint=- cause=NoPattern, NoSuch | 1
edited@ | append, explain, withdraw 1, explain     | 2, open context=/ path=/admin/x pattern=/admin/* constraint=2 cause=Unauthenticated, 1, denied context=/ path=/admin/x pattern=/admin/* constraint=2 cause=Transport | 1
"#;

#[test]
fn an_event_is_accepted_or_refused_for_its_connection(rt: HostRuntime) -> Result<(), Strays> {
    hold(&rt, &[ROWS], &Events)
}
