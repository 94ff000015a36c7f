//! Connections over streams.

use crate::echo::Echo;
use std::alloc::Global;
use sv_connection::{Over, run_connection};
use sv_rows::{Asks, Draft, Strays, cell, hold, unescaped};
use sv_streams::{Clock, MemoryStream};
use sv_text::NoMemory;

/// A clock that starts at 0 and advances by one second with each call.
#[derive(Drop)]
struct Counter {
    next: u64,
}

impl Clock for Counter {
    fn now(&mut self) -> u64 {
        let moment = self.next;
        self.next = moment.saturating_add(1);
        moment
    }
}

/// Answers with the end of a connection, the bytes written, the events, and the number of reads and writes.
struct Connections;

impl Asks for Connections {
    const QUESTION: usize = 4;

    fn answer(&self, alloc: Global, row: &str, answer: &mut Vec<u8>) -> Result<(), NoMemory> {
        let input = unescaped(alloc, cell(row, 0))?;
        let piece = cell(row, 1).parse::<usize>().unwrap_or(1).max(1);
        let failing = cell(row, 2).parse::<u64>().unwrap_or(0);
        let connection = cell(row, 3).parse::<u64>().unwrap_or(0);
        let mut stream = MemoryStream::new(alloc, input, piece, failing);
        let mut clock = Counter { next: 0 };
        let mut echo = Echo::new(alloc);
        let mut buffer = [0u8; 64];
        let mut told = Draft::new(alloc);
        match run_connection(&mut echo, connection, &mut stream, &mut clock, &mut buffer) {
            Ok(Over::Closed) => told.add("closed"),
            Ok(Over::Lost) => told.add("lost"),
            Err(fault) => told.add_shown(&fault),
        }
        told.add(" | ");
        told.add_bytes(stream.written());
        told.add(" | ");
        told.add_bytes(echo.noted.finish()?.as_slice());
        told.add(" | ");
        told.add_shown(&stream.calls());
        told.add_to(answer)
    }
}

/// The columns: input; bytes per call; failing call; connection; its end; bytes written; events; number of calls.
const ROWS: &str = r#"
ab    | 100 | 0 | 1   | closed | <ab@0>      | open1 piece1 end1        | 3
ab    | 1   | 0 | 1   | closed | <a@0><b@1>  | open1 piece1 piece1 end1 | 13
""    | 100 | 0 | 1   | closed | ""          | open1 end1               | 1
-- where nothing is to be sent, nothing is written
....  | 2   | 0 | 1   | closed | ""          | open1 end1               | 3
-- a piece that closes is the last one, though more could be read
a!b   | 8   | 0 | 7   | closed | <a!b@0>     | open7 piece7 end7        | 3
a!b   | 2   | 0 | 7   | closed | <a!@0>      | open7 piece7 end7        | 4
-- each call fails in turn
ab    | 100 | 1 | 1   | lost   | ""          | open1 lost1              | 1
ab    | 100 | 2 | 1   | lost   | ""          | open1 piece1 lost1       | 2
ab    | 100 | 3 | 1   | lost   | <ab@0>      | open1 piece1 lost1       | 3
ab    | 100 | 4 | 1   | closed | <ab@0>      | open1 piece1 end1        | 3
ab    | 1   | 1 | 1   | lost   | ""          | open1 lost1              | 1
ab    | 1   | 2 | 1   | lost   | ""          | open1 piece1 lost1       | 2
ab    | 1   | 4 | 1   | lost   | <a          | open1 piece1 lost1       | 4
ab    | 1   | 6 | 1   | lost   | <a@0        | open1 piece1 lost1       | 6
ab    | 1   | 7 | 1   | lost   | <a@0>       | open1 piece1 lost1       | 7
ab    | 1   | 8 | 1   | lost   | <a@0>       | open1 piece1 piece1 lost1 | 8
ab    | 1   | 12 | 1  | lost   | <a@0><b@1   | open1 piece1 piece1 lost1 | 12
ab    | 1   | 13 | 1  | lost   | <a@0><b@1>  | open1 piece1 piece1 lost1 | 13
-- also where what failed was to close
a!    | 100 | 2 | 1   | lost   | ""          | open1 piece1 lost1       | 2
-- a refused event ends the connection with a fault, and nothing follows
ab    | 100 | 0 | 901 | socket    | ""     | ""                 | 0
ab    | 100 | 0 | 902 | socket    | ""     | ""                 | 0
ab    | 100 | 0 | 903 | socket    | ""     | ""                 | 0
ab    | 100 | 0 | 904 | no memory | ""     | ""                 | 0
a?4   | 1   | 0 | 1   | closed | <a@0><?@1><4@2> | open1 piece1 piece1 piece1 end1 | 19
?4    | 100 | 0 | 1   | no memory | ""     | open1              | 1
??    | 100 | 0 | 1   | closed | <??@0>          | open1 piece1 end1  | 3
ab?1  | 2   | 0 | 1   | socket    | <ab@0> | open1 piece1       | 5
ab    | 100 | 0 | 911 | socket    | <ab@0> | open911 piece911   | 3
ab    | 100 | 0 | 914 | no memory | <ab@0> | open914 piece914   | 3
ab    | 100 | 3 | 922 | socket    | <ab@0> | open922 piece922   | 3
ab    | 100 | 3 | 924 | no memory | <ab@0> | open924 piece924   | 3
"#;

#[test]
fn a_connection_is_served_to_its_end(rt: HostRuntime) -> Result<(), Strays> {
    hold(&rt, &[ROWS], &Connections)
}

/// The same columns, at the maximum number of reads.
const MANY: &str = r#"
\{1000000*.} | 1 | 0 | 1 | lost   | "" | open1 lost1 | 1000000
\{1000001*.} | 1 | 0 | 1 | lost   | "" | open1 lost1 | 1000000
\{999999*.}  | 1 | 0 | 1 | closed | "" | open1 end1  | 1000000
"#;

#[test]
fn a_connection_is_read_at_most_a_million_times(rt: HostRuntime) -> Result<(), Strays> {
    hold(&rt, &[MANY], &Connections)
}
