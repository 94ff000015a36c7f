//! A listener and the poll that reports its connections.

use crate::control::CONTROL;
use crate::signals::register_signals;
use mio::net::{TcpListener, TcpStream, UnixListener, UnixStream};
use mio::{Interest, Poll, Registry, Token};
use std::fs::{Files, Permissions, remove_file, set_permissions, symlink_metadata};
use std::io;
use std::io::ErrorKind;
use std::net::{Net, SocketAddr};
use std::os::fd::{OwnedFd, RawFd};
use std::os::unix::fs::{FileTypeExt, PermissionsExt};

// The token of the listener. No connection has it as its number.
pub(crate) const LISTENER: usize = usize::MAX;

// File mode that lets only the owner connect.
const OWNER_ALONE: u32 = 0o600;

/// A listener, and the poll that reports waiting clients, ready connections and signals.
#[derive(Drop)]
pub struct Listening {
    pub(crate) poll: Poll,
    pub(crate) listener: TcpListener,
    pub(crate) control: Option<UnixListener>,
    pub(crate) signals: Option<RawFd>,
}

impl Listening {
    /// Listens at an address. Port 0 selects any free port.
    ///
    /// # Errors
    /// The system's: the address is taken or does not belong to this machine, or the sockets could not be created.
    pub fn at<H: Net>(host: &H, address: SocketAddr) -> io::Result<Listening> {
        let poll = Poll::new(host)?;
        let mut listener = without_delay(TcpListener::bind(host, address)?);
        poll.registry()
            .register(&mut listener, Token(LISTENER), Interest::READABLE)?;
        Ok(Listening {
            poll,
            listener,
            control: None,
            signals: None,
        })
    }

    /// Also listens at a control socket, which this function creates. Only the owner of the file (and a privileged
    /// user) may connect. An existing socket file without a listener is replaced.
    ///
    /// # Errors
    /// `AlreadyExists` if a file that is no socket has that name. Otherwise the system's: another process listens there,
    /// or the socket or its mode could not be set up. The socket file may then exist.
    pub fn take_lines_at<H: Files + Net>(&mut self, host: &H, path: &str) -> io::Result<()> {
        if is_other_file(host, path) {
            return Err(io::Error::from(ErrorKind::AlreadyExists));
        }
        if is_left(host, path) {
            remove_file(host, path)?;
        }
        let mut control = UnixListener::bind(host, path)?;
        set_permissions(host, path, Permissions::from_mode(OWNER_ALONE))?;
        turn_away(&control);
        self.poll
            .registry()
            .register(&mut control, Token(CONTROL), Interest::READABLE)?;
        self.control = Some(control);
        Ok(())
    }

    /// Also reads the signals of this process at the descriptor of this number, which another program opened by
    /// `signalfd(2)`. It is never closed.
    ///
    /// # Errors
    /// The system's: there is no such descriptor, or its readiness cannot be reported.
    pub fn take_signals_at(&mut self, descriptor: u32) -> io::Result<()> {
        let Ok(descriptor) = RawFd::try_from(descriptor) else {
            return Err(io::Error::from(ErrorKind::InvalidInput));
        };
        register_signals(self.poll.registry(), descriptor)?;
        self.signals = Some(descriptor);
        Ok(())
    }

    /// Returns the address of the listener.
    ///
    /// # Errors
    /// The system's.
    pub fn address(&self) -> io::Result<SocketAddr> {
        self.listener.local_addr()
    }

    /// Returns another handle to the registry.
    ///
    /// # Errors
    /// The system's.
    pub fn registry(&self) -> io::Result<Registry> {
        self.poll.registry().try_clone()
    }
}

// Sets `TCP_NODELAY` on the listener. Linux passes the option on to accepted sockets, so responses are sent without
// delay.
fn without_delay(listener: TcpListener) -> TcpListener {
    let socket = TcpStream::from(OwnedFd::from(listener));
    // If setting it fails, responses are the same but may be delayed.
    let _ = socket.set_nodelay(true);
    TcpListener::from(OwnedFd::from(socket))
}

// Drops clients that connected before the file mode was set.
fn turn_away(listener: &UnixListener) {
    for _ in 0..u64::MAX {
        if listener.accept().is_err() {
            return;
        }
    }
}

// Whether the path is that of a file that is no socket.
fn is_other_file<H: Files>(host: &H, path: &str) -> bool {
    match symlink_metadata(host, path) {
        Ok(found) => !found.file_type().is_socket(),
        Err(_) => false,
    }
}

// Whether the path is a socket file without a listener.
fn is_left<H: Files + Net>(host: &H, path: &str) -> bool {
    let is_socket = match symlink_metadata(host, path) {
        Ok(found) => found.file_type().is_socket(),
        Err(_) => false,
    };
    is_socket && is_refused(host, path)
}

// Whether the system refuses a connection to a socket file. It does not wait: a listener whose clients all wait, since its
// process does not go on, is no reason to replace the file.
fn is_refused<H: Net>(host: &H, path: &str) -> bool {
    match UnixStream::connect(host, path) {
        Ok(_) => false,
        Err(error) => error.kind() == ErrorKind::ConnectionRefused,
    }
}
