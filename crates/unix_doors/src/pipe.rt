//! A Unix socket as a pipe.
ghost use Rattle.std.specs.Prelude.{◌≡◌, ◌↔◌, ◌⊎◌, IsTrue};
ghost use Rattle.std.specs.declared.io.ErrorKind.TheVariants.{WouldBlock, Interrupted};
ghost use Rattle.node_connections.specs.socket_links.Counts.{Counts};

use crate::seats::HeldSeat;
use libc::net::{SO_SNDBUF, SOL_SOCKET, setsockopt};
use mio::net::UnixStream;
use node_connections::{Pipe, ReadAnswer, WriteAnswer};
use std::io::{self, ErrorKind, Read, Write};
use std::os::fd::AsRawFd;

/// A connection over a Unix socket, which never waits. It is closed when it is dropped. The bytes
/// that a socket gives and takes are the system's, so contracts say nothing of them.
#[derive(Drop)]
pub struct UnixPipe {
    stream: UnixStream,
    later: u64,
    closed: u64,
    failed: u64,
    /// The seat that a client's connection has. Nobody reads it: it shows that the connection is not
    /// closed.
    _seat: Option<HeldSeat>,
}

impl UnixPipe {
    /// A pipe over this connection, which has answered nothing yet.
    pub fn new(stream: UnixStream) -> UnixPipe
        ensures { (result.later ≡ 0) × (result.closed ≡ 0) × (result.failed ≡ 0) }
    {
        UnixPipe {
            stream,
            later: 0,
            closed: 0,
            failed: 0,
            _seat: None,
        }
    }

    /// The same pipe, which holds a seat until it is closed.
    pub(crate) fn with_seat(self, seat: HeldSeat) -> UnixPipe
        ensures { (result.stream ≡ self.stream) × (result.later ≡ self.later)
            × (result.closed ≡ self.closed) × (result.failed ≡ self.failed) }
    {
        let mut pipe = self;
        pipe._seat = Some(seat);
        pipe
    }
}

impl Pipe for UnixPipe {
    ghost use Rattle.std.specs.Prelude.{None};

    ghost gave = { λ _. None };

    ghost took = { λ _. None };

    ghost counts = { λ p. record { later = p.later; closed = p.closed; failed = p.failed } };

    fn try_read(&mut self, buffer: &mut [u8]) -> ReadAnswer {
        match self.stream.read(buffer) {
            Ok(0) => {
                self.closed = self.closed.saturating_add(1);
                ReadAnswer::Closed
            }
            Ok(count) => ReadAnswer::Got(count),
            Err(error) if is_passing(error.kind()) => {
                self.later = self.later.saturating_add(1);
                ReadAnswer::Later
            }
            Err(_) => {
                self.failed = self.failed.saturating_add(1);
                ReadAnswer::Failed
            }
        }
    }

    fn try_write(&mut self, bytes: &[u8]) -> WriteAnswer {
        match self.stream.write(bytes) {
            Ok(count) if count > 0 => WriteAnswer::Wrote(count),
            Err(error) if !is_passing(error.kind()) => {
                self.failed = self.failed.saturating_add(1);
                WriteAnswer::Failed
            }
            _ => {
                self.later = self.later.saturating_add(1);
                WriteAnswer::Later
            }
        }
    }
}

/// The same socket with the least send buffer that the system gives, so that few frames are under
/// way in it: an unread socket took 6 writes with it, and 278 without.
///
/// # Errors
/// If the system refuses it.
pub fn hold_few(stream: UnixStream) -> io::Result<UnixStream> {
    // A size of 0 bytes stands for the least.
    let least = [0; 16];
    let status = unsafe { setsockopt(stream.as_raw_fd(), SOL_SOCKET, SO_SNDBUF, &least, 4) };
    if status < 0 {
        return Err(io::Error::from(ErrorKind::Other));
    }
    Ok(stream)
}

/// Whether the same call may succeed a moment later: the socket was empty or full, or a signal
/// came.
pub fn is_passing(kind: ErrorKind) -> bool
    ensures { IsTrue result ↔ ((kind ≡ WouldBlock) ⊎ (kind ≡ Interrupted)) }
{
    matches!(kind, ErrorKind::WouldBlock | ErrorKind::Interrupted)
}
