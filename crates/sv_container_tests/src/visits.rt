//! The runs: the events of each, and the laws that they must keep.

use crate::counted_components::Counts;
use crate::deployments::{TestContainer, TestDeployment, TestFault, deployments};
use crate::outcome::{Law, Outcome};
use std::alloc::Global;
use sv_container::{Container, NewCode};
use sv_journal::{Journal, StartCode};
use sv_message::Segments;
use sv_run::{CountedWords, Happening, Reaction, StepFault};
use sv_text::NoMemory;

const STORED_RESPONSE: &str =
    "HTTP/1.1 200 OK\r\ndate: Thu, 01 Jan 1970 00:00:00 GMT\r\ncontent-type: text/plain\r\ncontent-length: 9\r\nconnection: close\r\n\r\ncaller -\n";

/// The login page, with the id of a new session.
const FIRST_LOGIN_PAGE: &str =
    "HTTP/1.1 200 OK\r\ndate: Thu, 01 Jan 1970 00:00:00 GMT\r\nx-mark: mark\r\ncontent-type: text/html\r\nset-cookie: JSESSIONID=000000000000000000000000000000010000000000000001; Path=/; HttpOnly\r\ncontent-length: 6\r\n\r\nlogin\n";

const LOGIN: &str =
    "POST /j_security_check HTTP/1.1\r\nHost: h\r\nCookie: JSESSIONID=000000000000000000000000000000010000000000000001\r\nContent-Type: application/x-www-form-urlencoded\r\nContent-Length: 28\r\n\r\nj_username=ann&j_password=bc";

/// The redirect to the first request, with the new id of the session.
const LOGGED_IN: &str =
    "HTTP/1.1 303 See Other\r\ndate: Thu, 01 Jan 1970 00:00:00 GMT\r\nlocation: /admin/x.txt?p=1\r\nset-cookie: JSESSIONID=000000000000000000000000000000020000000000000002; Path=/; HttpOnly\r\ncontent-length: 0\r\n\r\n";

const WITH_FIRST_ID: &str =
    "GET /admin/x.txt HTTP/1.1\r\nHost: h\r\nCookie: JSESSIONID=000000000000000000000000000000010000000000000001\r\n\r\n";

const SECOND_LOGIN_PAGE: &str =
    "HTTP/1.1 200 OK\r\ndate: Thu, 01 Jan 1970 00:00:00 GMT\r\nx-mark: mark\r\ncontent-type: text/html\r\nset-cookie: JSESSIONID=000000000000000000000000000000030000000000000003; Path=/; HttpOnly\r\ncontent-length: 6\r\n\r\nlogin\n";

const WITH_NEW_ID: &str =
    "GET /admin/x.txt HTTP/1.1\r\nHost: h\r\nCookie: JSESSIONID=000000000000000000000000000000020000000000000002\r\n\r\n";

const SECRET: &str =
    "HTTP/1.1 200 OK\r\ndate: Thu, 01 Jan 1970 00:00:00 GMT\r\ncontent-type: text/plain\r\ncontent-length: 7\r\n\r\nsecret\n";

/// A run of a container.
trait Visit {
    /// The deployments, as the rows of tests write them.
    const DEPLOYMENTS: &'static str;

    /// The number of contexts.
    const CONTEXTS: usize;

    /// The number of session events at the shutdown, if nothing was refused.
    const SESSION_EVENTS: u64;

    /// Takes the container through its events. Returns the outcome of the first that was refused or had another
    /// response than it must have.
    fn visit(&self, container: &mut TestContainer) -> Result<(), Outcome>;
}

/// The stored run: a request that ends its connection.
struct StoredRun;

impl Visit for StoredRun {
    const DEPLOYMENTS: &'static str = "who@";

    const CONTEXTS: usize = 1;

    const SESSION_EVENTS: u64 = 0;

    fn visit(&self, container: &mut TestContainer) -> Result<(), Outcome> {
        open(container, 1)?;
        let request = "GET /who HTTP/1.1\r\nHost: h\r\nConnection: close\r\n\r\n";
        send(container, 1, request, STORED_RESPONSE)
    }
}

/// A login (Jakarta Servlet 6.0, section 13.6.3): it changes the id of its session. The old id opens a new session, and
/// the new id is that of a caller on each connection. Two sessions are live at the shutdown.
struct Login;

impl Visit for Login {
    const DEPLOYMENTS: &'static str = "demo@ two@/two";

    const CONTEXTS: usize = 2;

    // Both listeners are notified of the end of both sessions, which have no attributes.
    const SESSION_EVENTS: u64 = 4;

    fn visit(&self, container: &mut TestContainer) -> Result<(), Outcome> {
        open(container, 1)?;
        open(container, 2)?;
        let request = "GET /admin/x.txt?p=1 HTTP/1.1\r\nHost: h\r\n\r\n";
        send(container, 1, request, FIRST_LOGIN_PAGE)?;
        send(container, 1, LOGIN, LOGGED_IN)?;
        send(container, 2, WITH_FIRST_ID, SECOND_LOGIN_PAGE)?;
        send(container, 2, WITH_NEW_ID, SECRET)?;
        send(container, 1, WITH_NEW_ID, SECRET)
    }
}

/// Returns the outcome of the stored run.
pub fn outcome_of_stored_run(alloc: Global) -> Outcome {
    outcome(alloc, &StoredRun)
}

/// Returns the outcome of the login.
pub fn outcome_of_login(alloc: Global) -> Outcome {
    outcome(alloc, &Login)
}

fn outcome<V: Visit>(alloc: Global, visit: &V) -> Outcome {
    let mut counts = Counts::new(alloc);
    match deployments(alloc, V::DEPLOYMENTS, &mut counts) {
        Ok(contexts) => started(alloc, visit, contexts, &counts),
        Err(NoMemory) => Outcome::Unbuilt,
    }
}

fn started<V: Visit>(
    alloc: Global,
    visit: &V,
    contexts: Vec<TestDeployment>,
    counts: &Counts,
) -> Outcome {
    let mut journal = Journal::new(alloc);
    match Container::new(alloc, contexts, CountedWords::new(), &mut journal) {
        Ok(container) => served(visit, container, counts),
        Err(fault) => unstarted::<V>(fault, counts),
    }
}

fn unstarted<V: Visit>(fault: TestFault, counts: &Counts) -> Outcome {
    let returned = fault.deployments.len();
    let (code, _) = fault.into_cause();
    if !matches!(code, NewCode::Start(StartCode::NoMemory)) {
        Outcome::Broken(Law::Refusals)
    } else if returned != V::CONTEXTS {
        Outcome::Broken(Law::Returns)
    } else if !counts.all_ended() {
        Outcome::Broken(Law::Ends)
    } else {
        Outcome::Unstarted
    }
}

/// Takes a container through its events and shuts it down.
fn served<V: Visit>(visit: &V, mut container: TestContainer, counts: &Counts) -> Outcome {
    let visited = visit.visit(&mut container);
    let before = counts.session_events();
    let outcome = outcome_of_events(visited, &mut container);
    let is_started = counts.all_started();
    let shutdown = container.shutdown();
    let returned = shutdown.parts.len();
    shutdown.let_go();
    let told = counts.session_events().saturating_sub(before);
    if matches!(outcome, Outcome::Broken(_)) {
        outcome
    } else if !is_started {
        Outcome::Broken(Law::Starts)
    } else if returned != V::CONTEXTS {
        Outcome::Broken(Law::Returns)
    } else if !counts.all_ended() {
        Outcome::Broken(Law::Ends)
    } else if told != session_events::<V>(outcome) {
        Outcome::Broken(Law::Sessions)
    } else {
        outcome
    }
}

/// Returns the number of session events that the shutdown must have.
fn session_events<V: Visit>(outcome: Outcome) -> u64 {
    if outcome == Outcome::Answered {
        V::SESSION_EVENTS
    } else {
        0
    }
}

fn outcome_of_events(visited: Result<(), Outcome>, container: &mut TestContainer) -> Outcome {
    match visited {
        Ok(()) => Outcome::Answered,
        Err(Outcome::Stopped) => outcome_of_stop(container),
        Err(outcome) => outcome,
    }
}

/// Passes further events to a stopped container. The first of them is long after the end of each session.
fn outcome_of_stop(container: &mut TestContainer) -> Outcome {
    let ticked = container.step(Happening::Tick { moment: u64::MAX });
    let opened = container.step(Happening::Opened { connection: 3 });
    let ended = container.step(Happening::Ended { connection: 1 });
    if refuses(ticked) && refuses(opened) && refuses(ended) {
        Outcome::Stopped
    } else {
        Outcome::Broken(Law::Stop)
    }
}

/// Returns whether an event is refused because the container is stopped.
fn refuses(taken: Result<Reaction, StepFault>) -> bool {
    matches!(taken, Err(StepFault::Stopped))
}

/// Opens a connection, which sends nothing.
fn open(container: &mut TestContainer, connection: u64) -> Result<(), Outcome> {
    sent(container.step(Happening::Opened { connection }), "")
}

/// Sends a request, which must have this response.
fn send(
    container: &mut TestContainer,
    connection: u64,
    request: &str,
    response: &str,
) -> Result<(), Outcome> {
    let piece = Happening::Piece {
        connection,
        bytes: request.as_bytes(),
        moment: 0,
    };
    sent(container.step(piece), response)
}

// Returns whether the bytes are those of a text, none of them shared.
fn is_text(bytes: &Segments, text: &str) -> bool {
    let (first, shared, last) = bytes.slices();
    first == text.as_bytes() && shared.is_empty() && last.is_empty()
}

fn sent(taken: Result<Reaction, StepFault>, text: &str) -> Result<(), Outcome> {
    match &taken {
        Ok(reaction) if is_text(&reaction.sends, text) => Ok(()),
        Ok(_) => Err(Outcome::Broken(Law::Responses)),
        Err(StepFault::NoMemory) => Err(Outcome::Stopped),
        Err(_) => Err(Outcome::Broken(Law::Refusals)),
    }
}
