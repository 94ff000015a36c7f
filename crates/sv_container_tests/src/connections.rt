//! Connections whose reads or writes fail, and those that are served after them by the same container.

use crate::containers::{Does, answer_with};
use crate::deployments::TestContainer;
use std::alloc::Global;
use sv_connection::{AcceptFailed, Acceptor, Over, run_connection, serve_connections};
use sv_rows::{Asks, Draft, Strays, cell, hold, unescaped};
use sv_run::RunFault;
use sv_streams::{Clock, MemoryStream};
use sv_text::NoMemory;

/// A clock that always gives the first second of 1970.
#[derive(Drop)]
struct FirstSecond;

impl Clock for FirstSecond {
    fn now(&mut self) -> u64 {
        0
    }
}

/// The response to a request for `/who`: 110 bytes.
const RESPONSE: &str =
    "HTTP/1.1 200 OK\r\ndate: Thu, 01 Jan 1970 00:00:00 GMT\r\ncontent-type: text/plain\r\ncontent-length: 9\r\n\r\ncaller -\n";

/// Serves the connections of a row one after another, numbered from 1. Answers for each with its end, the number of its
/// reads and writes, and the bytes written.
struct Connections;

impl Does for Connections {
    fn act(
        &self,
        alloc: Global,
        row: &str,
        container: &mut TestContainer,
        told: &mut Draft,
        _entries: &mut Draft,
    ) {
        let mut number = 0u64;
        for connection in cell(row, 1).split(", ") {
            if !told.is_empty() {
                told.add(", ");
            }
            number = number.saturating_add(1);
            match stream(alloc, connection) {
                Ok(stream) => connect(number, stream, container, told),
                Err(NoMemory) => told.fail(),
            }
        }
    }
}

impl Asks for Connections {
    const QUESTION: usize = 2;

    fn answer(&self, alloc: Global, row: &str, answer: &mut Vec<u8>) -> Result<(), NoMemory> {
        answer_with(alloc, row, self, answer)
    }
}

/// Returns the stream of a text: the bytes per call, the number of the call that fails or 0, and the input.
fn stream(alloc: Global, text: &str) -> Result<MemoryStream, NoMemory> {
    let (piece, rest) = text.split_once(' ').unwrap_or((text, ""));
    let (failing, input) = rest.split_once(' ').unwrap_or((rest, ""));
    let piece = piece.parse::<usize>().unwrap_or(1).max(1);
    let failing = failing.parse::<u64>().unwrap_or(0);
    Ok(MemoryStream::new(alloc, unescaped(alloc, input)?, piece, failing))
}

/// Serves one connection to its end.
fn connect(number: u64, mut stream: MemoryStream, container: &mut TestContainer, told: &mut Draft) {
    let mut clock = FirstSecond;
    let mut buffer = [0u8; 64];
    tell_end(
        run_connection(container, number, &mut stream, &mut clock, &mut buffer),
        told,
    );
    told.add(" ");
    told.add_shown(&stream.calls());
    told.add(" ");
    tell_written(stream.written(), told);
}

fn tell_end(end: Result<Over, RunFault>, told: &mut Draft) {
    match end {
        Ok(Over::Closed) => told.add("closed"),
        Ok(Over::Lost) => told.add("lost"),
        Err(fault) => told.add_shown(&fault),
    }
}

/// Adds the number of bytes if they are the front of two responses to requests for `/who`, else the bytes.
fn tell_written(written: &[u8], told: &mut Draft) {
    let (first, rest) = written.split_at(written.len().min(RESPONSE.len()));
    let is_front = RESPONSE.as_bytes().starts_with(first) && RESPONSE.as_bytes().starts_with(rest);
    if is_front {
        told.add_shown(&written.len());
    } else {
        told.add_bytes(written);
    }
}

/// The columns: deployments; connections, each with its bytes per call, its failing call and its input; the end of each,
/// its number of calls and the bytes written, and the number of contexts whose components were returned.
const ROWS: &str = r#"
-- a request that takes one read, the two writes of its 110 bytes, and the read that meets the end: each fails in turn
who@ | 64 1 GET /who HTTP/1.1\r\nHost: h\r\n\r\n, 64 0 GET /who HTTP/1.1\r\nHost: h\r\n\r\n | lost 1 0, closed 4 110   | 1
who@ | 64 2 GET /who HTTP/1.1\r\nHost: h\r\n\r\n, 64 0 GET /who HTTP/1.1\r\nHost: h\r\n\r\n | lost 2 0, closed 4 110   | 1
who@ | 64 3 GET /who HTTP/1.1\r\nHost: h\r\n\r\n, 64 0 GET /who HTTP/1.1\r\nHost: h\r\n\r\n | lost 3 64, closed 4 110  | 1
who@ | 64 4 GET /who HTTP/1.1\r\nHost: h\r\n\r\n, 64 0 GET /who HTTP/1.1\r\nHost: h\r\n\r\n | lost 4 110, closed 4 110 | 1
who@ | 64 5 GET /who HTTP/1.1\r\nHost: h\r\n\r\n, 64 0 GET /who HTTP/1.1\r\nHost: h\r\n\r\n | closed 4 110, closed 4 110 | 1
-- two requests of 30 bytes, each with one read and four writes, and the read that meets the end
who@ | 30 1 \{2*GET /who HTTP/1.1\r\nHost: h\r\n\r\n}, 64 0 GET /who HTTP/1.1\r\nHost: h\r\n\r\n  | lost 1 0, closed 4 110     | 1
who@ | 30 2 \{2*GET /who HTTP/1.1\r\nHost: h\r\n\r\n}, 64 0 GET /who HTTP/1.1\r\nHost: h\r\n\r\n  | lost 2 0, closed 4 110     | 1
who@ | 30 3 \{2*GET /who HTTP/1.1\r\nHost: h\r\n\r\n}, 64 0 GET /who HTTP/1.1\r\nHost: h\r\n\r\n  | lost 3 30, closed 4 110    | 1
who@ | 30 4 \{2*GET /who HTTP/1.1\r\nHost: h\r\n\r\n}, 64 0 GET /who HTTP/1.1\r\nHost: h\r\n\r\n  | lost 4 60, closed 4 110    | 1
who@ | 30 5 \{2*GET /who HTTP/1.1\r\nHost: h\r\n\r\n}, 64 0 GET /who HTTP/1.1\r\nHost: h\r\n\r\n  | lost 5 90, closed 4 110    | 1
who@ | 30 6 \{2*GET /who HTTP/1.1\r\nHost: h\r\n\r\n}, 64 0 GET /who HTTP/1.1\r\nHost: h\r\n\r\n  | lost 6 110, closed 4 110   | 1
who@ | 30 7 \{2*GET /who HTTP/1.1\r\nHost: h\r\n\r\n}, 64 0 GET /who HTTP/1.1\r\nHost: h\r\n\r\n  | lost 7 110, closed 4 110   | 1
who@ | 30 8 \{2*GET /who HTTP/1.1\r\nHost: h\r\n\r\n}, 64 0 GET /who HTTP/1.1\r\nHost: h\r\n\r\n  | lost 8 140, closed 4 110   | 1
who@ | 30 9 \{2*GET /who HTTP/1.1\r\nHost: h\r\n\r\n}, 64 0 GET /who HTTP/1.1\r\nHost: h\r\n\r\n  | lost 9 170, closed 4 110   | 1
who@ | 30 10 \{2*GET /who HTTP/1.1\r\nHost: h\r\n\r\n}, 64 0 GET /who HTTP/1.1\r\nHost: h\r\n\r\n | lost 10 200, closed 4 110  | 1
who@ | 30 11 \{2*GET /who HTTP/1.1\r\nHost: h\r\n\r\n}, 64 0 GET /who HTTP/1.1\r\nHost: h\r\n\r\n | lost 11 220, closed 4 110  | 1
who@ | 30 12 \{2*GET /who HTTP/1.1\r\nHost: h\r\n\r\n}, 64 0 GET /who HTTP/1.1\r\nHost: h\r\n\r\n | closed 11 220, closed 4 110 | 1
-- the part of a message that was read before the failure is dropped, in its head and in its body
who@ | 20 2 GET /who HTTP/1.1\r\nHost: h\r\n\r\n, 64 0 GET /who HTTP/1.1\r\nHost: h\r\n\r\n | lost 2 0, closed 4 110   | 1
who@ | 64 2 POST /who HTTP/1.1\r\nHost: h\r\nContent-Length: 31\r\n\r\na, 64 0 GET /who HTTP/1.1\r\nHost: h\r\n\r\n | lost 2 0, closed 4 110 | 1
-- a session belongs to no connection: it lives on if the response that names it is not written
two@ | 64 2 GET /keep HTTP/1.1\r\nHost: h\r\n\r\n, 64 0 GET /keep HTTP/1.1\r\nHost: h\r\nCookie: JSESSIONID=000000000000000000000000000000010000000000000001\r\n\r\n | lost 2 0, closed 5 HTTP/1.1 200 OK\r\ndate: Thu, 01 Jan 1970 00:00:00 GMT\r\ncontent-type: text/plain\r\ncontent-length: 4\r\n\r\nn=2\n | 1
"#;

#[test]
fn the_next_connection_is_served_after_a_read_or_write_fails(
    rt: HostRuntime,
) -> Result<(), Strays> {
    hold(&rt, &[ROWS], &Connections)
}

/// The same columns, at the maximum number of reads. The heads of the first connections have 56, 55 and 55 bytes.
const MANY: &str = r#"
-- there are more bytes to read, which no read asks for
who@ | 1 0 POST /who HTTP/1.1\r\nHost: h\r\nContent-Length: 1048576\r\n\r\n\{1048576*a}, 64 0 GET /who HTTP/1.1\r\nHost: h\r\n\r\n | lost 1000000 0, closed 4 110 | 1
-- the message that the last read completes gets its response of 110 writes
who@ | 1 0 POST /who HTTP/1.1\r\nHost: h\r\nContent-Length: 999945\r\n\r\n\{999945*a}, 64 0 GET /who HTTP/1.1\r\nHost: h\r\n\r\n | lost 1000110 110, closed 4 110 | 1
-- the last read meets the end
who@ | 1 0 POST /who HTTP/1.1\r\nHost: h\r\nContent-Length: 999944\r\n\r\n\{999944*a}, 64 0 GET /who HTTP/1.1\r\nHost: h\r\n\r\n | closed 1000110 110, closed 4 110 | 1
"#;

#[test]
fn the_next_connection_is_served_after_a_million_reads(rt: HostRuntime) -> Result<(), Strays> {
    hold(&rt, &[MANY], &Connections)
}

/// Serves some connections that fail, and one that does not. Answers with the end of serving, the number of closed
/// streams, and the bytes written to the last of them.
struct Served;

impl Does for Served {
    fn act(
        &self,
        alloc: Global,
        row: &str,
        container: &mut TestContainer,
        told: &mut Draft,
        _entries: &mut Draft,
    ) {
        let failing = cell(row, 1).parse::<u64>().unwrap_or(0);
        let mut peers = Peers {
            alloc,
            failing,
            call: cell(row, 2).parse::<u64>().unwrap_or(0),
            closed: 0,
            last: None,
        };
        let mut clock = FirstSecond;
        let mut buffer = [0u8; 64];
        let count = failing.saturating_add(1);
        match serve_connections(container, &mut peers, &mut clock, count, &mut buffer) {
            Ok(()) => told.add("served"),
            Err(fault) => told.add_shown(&fault),
        }
        told.add(" ");
        told.add_shown(&peers.closed);
        told.add(" ");
        if let Some(last) = &peers.last {
            tell_written(last.written(), told);
        }
    }
}

impl Asks for Served {
    const QUESTION: usize = 3;

    fn answer(&self, alloc: Global, row: &str, answer: &mut Vec<u8>) -> Result<(), NoMemory> {
        answer_with(alloc, row, self, answer)
    }
}

/// The streams of connections that each send a request for `/who`.
#[derive(Drop)]
struct Peers {
    alloc: Global,
    /// The number of streams that will fail.
    failing: u64,
    /// The call that fails in each of them.
    call: u64,
    /// The number of closed streams.
    closed: u64,
    /// The stream that was closed last.
    last: Option<MemoryStream>,
}

impl Acceptor for Peers {
    type Peer = MemoryStream;

    fn accept(&mut self) -> Result<MemoryStream, AcceptFailed> {
        let call = if self.failing == 0 { 0 } else { self.call };
        self.failing = self.failing.saturating_sub(1);
        match unescaped(self.alloc, "GET /who HTTP/1.1\\r\\nHost: h\\r\\n\\r\\n") {
            Ok(request) => Ok(MemoryStream::new(self.alloc, request, 64, call)),
            Err(NoMemory) => Err(AcceptFailed),
        }
    }

    fn part(&mut self, peer: MemoryStream) {
        self.closed = self.closed.saturating_add(1);
        self.last = Some(peer);
    }
}

/// The columns: deployments; the number of connections that fail; the call at which each does; the end of serving, the
/// number of closed streams and the bytes written to the last, and the number of contexts whose components were
/// returned.
const SERVED: &str = r#"
who@ | 0    | 0 | served 1 110    | 1
who@ | 1    | 1 | served 2 110    | 1
who@ | 2    | 3 | served 3 110    | 1
-- more than the 1,024 connections that may be known at a time
who@ | 1025 | 1 | served 1026 110 | 1
who@ | 1025 | 2 | served 1026 110 | 1
who@ | 1025 | 3 | served 1026 110 | 1
who@ | 1025 | 4 | served 1026 110 | 1
"#;

#[test]
fn connections_that_fail_take_no_place_from_those_after_them(
    rt: HostRuntime,
) -> Result<(), Strays> {
    hold(&rt, &[SERVED], &Served)
}
