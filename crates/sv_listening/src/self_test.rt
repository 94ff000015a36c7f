//! The request of the self-test, and the first line of its response.

use crate::limits::{MAX_ANSWER_BYTES, SELF_TEST_SECONDS};
use std::alloc::Global;
use std::io;
use std::io::{Read, Write};
use std::net::{Net, OpenStream, SocketAddr, TcpStream};
use std::time::Duration;

/// The request of the self-test (RFC 9112, section 3).
pub const SELF_TEST_REQUEST: &str =
    "HEAD / HTTP/1.1\r\nHost: localhost\r\nConnection: close\r\n\r\n";

/// Connects to this address and writes the request of the self-test. No call of the connection waits longer than
/// [`SELF_TEST_SECONDS`].
///
/// # Errors
/// The system's error.
pub fn ask<H: Net>(host: &H, address: SocketAddr) -> io::Result<H::Stream> {
    let most = Duration::from_secs(SELF_TEST_SECONDS);
    let mut client = TcpStream::connect_timeout(host, &address, most)?;
    client.set_read_timeout(Some(most))?;
    client.set_write_timeout(Some(most))?;
    client.write_all(SELF_TEST_REQUEST.as_bytes())?;
    client.flush()?;
    Ok(client)
}

/// Reads a stream until it ends, at most [`MAX_ANSWER_BYTES`] bytes, and returns its first line without its line end. A
/// line without a line end counts as empty.
///
/// # Errors
/// The stream's error, or out of memory.
pub fn first_line<R: Read + Drop>(alloc: Global, stream: R) -> io::Result<Vec<u8>> {
    let mut answer = Vec::new(alloc);
    stream.take(MAX_ANSWER_BYTES).read_to_end(&mut answer)?;
    let end = answer
        .iter()
        .position(|byte| *byte == b'\r' || *byte == b'\n');
    answer.truncate(end.unwrap_or(0));
    Ok(answer)
}
