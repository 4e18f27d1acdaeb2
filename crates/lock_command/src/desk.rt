//! A connection to a node's desk.
ghost use Rattle.std.specs.Prelude.{◌≡◌, IfOk};
ghost use Rattle.lock_command.specs.Reading.{is_for_later};

use lock_client::{Answer, AnswerReader, spelled};
use lock_desk::ClientLine;
use mio::net::UnixStream;
use std::io;
use std::io::{ErrorKind, Read, Write};
use std::net::Net;

/// How many bytes are read at once.
const PIECE: usize = 64;

/// How many reads may be made for one line.
const READS: u32 = 16;

/// A connection to a node's desk, which never waits. No contract says what a socket gives.
/// [`AnswerReader`] reads its lines, and has a contract that says how.
#[derive(Drop)]
pub struct DeskConnection {
    /// Whose desk it is.
    node: u16,
    stream: UnixStream,
    reader: AnswerReader,
    bytes: [u8; PIECE],
    /// Where the bytes begin that came from the socket and are not yet read.
    next: usize,
    /// Where they end.
    end: usize,
}

/// What came from a desk.
#[derive(Clone, Copy)]
pub enum DeskAnswer {
    /// This line.
    Line(Answer),
    /// No whole line for now.
    Nothing,
    /// The connection is closed, or failed.
    Gone,
}

impl DeskConnection {
    /// Connects to the socket of this node's desk.
    ///
    /// # Errors
    /// What the system answers: there is no such file, nobody listens, too many wait to be
    /// accepted, the name is too long, the user may not use it, or no descriptor is left.
    pub fn connect<R: Net>(rt: &R, path: &str, node: u16) -> io::Result<DeskConnection>
        ensures { IfOk result (λ desk. desk.node ≡ node) }
    {
        Ok(DeskConnection {
            node,
            stream: UnixStream::connect(rt, path)?,
            reader: AnswerReader::new(),
            bytes: [0; PIECE],
            next: 0,
            end: 0,
        })
    }

    /// Whose desk it is.
    pub fn node(&self) -> u16
        ensures { result ≡ self.now.node }
    {
        self.node
    }

    /// The socket, so that a caller can wait for it.
    pub fn stream(&mut self) -> &mut UnixStream {
        &mut self.stream
    }

    /// Writes a line.
    ///
    /// # Errors
    /// If the connection is closed, has failed, or has no room for this many bytes.
    pub fn write(&mut self, line: ClientLine) -> io::Result<()>
        ensures { self.new.node ≡ self.old.node }
    {
        self.stream.write_all(spelled(line))
    }

    /// The next line that came, if one did.
    pub fn hear(&mut self) -> DeskAnswer
        ensures { self.new.node ≡ self.old.node }
    {
        for _ in 0..READS {
            if let Some(answer) = self.next_line() {
                return DeskAnswer::Line(answer);
            }
            match self.stream.read(&mut self.bytes) {
                Ok(0) => return DeskAnswer::Gone,
                Ok(count) => {
                    self.next = 0;
                    self.end = count;
                }
                Err(error) if is_for_later(error.kind()) => return DeskAnswer::Nothing,
                Err(_) => return DeskAnswer::Gone,
            }
        }
        DeskAnswer::Nothing
    }

    /// The first line that ends within the unread bytes.
    fn next_line(&mut self) -> Option<Answer>
        ensures { self.new.node ≡ self.old.node }
    {
        for at in self.next..self.end.min(PIECE) {
            self.next = at + 1;
            let line = self.reader.push(self.bytes[at]);
            if line.is_some() {
                return line;
            }
        }
        None
    }
}

/// Whether a read may be tried again later.
pub fn is_for_later(kind: ErrorKind) -> bool
    ensures { result ≡ is_for_later kind }
{
    matches!(kind, ErrorKind::WouldBlock | ErrorKind::Interrupted)
}
