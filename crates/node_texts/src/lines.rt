//! The lines that processes print.
ghost use Rattle.std.specs.Prelude.{Some};
ghost use Rattle.node_texts.specs.LineText.{capacity_line, end_line, end_text};

use std::fmt;

/// The capacity that links of sockets need. Up to 36 frames may be under way from one node to
/// another: 6 in a socket, 23 in the piece that was read from it last, one that waits to be
/// written, and 6 in the socket of an older connection. A socket was seen to take 6 frames; if one
/// of another system takes more, there is room for 28 more.
pub const SOCKET_FRAMES: u16 = 64;

/// The line that says that this capacity is less than [`SOCKET_FRAMES`]. If it is also less than
/// what may be under way, the proofs are about links that hold less than the real ones.
#[derive(Drop)]
pub struct CapacityLine(pub u16);

impl fmt::Display for CapacityLine {
    ghost output = { λ line. Some (capacity_line line.0) };

    fn fmt<W: fmt::Write>(&self, f: &mut fmt::Formatter<W>) -> fmt::Result {
        let capacity = self.0;
        write!(
            f,
            "tokentree: capacity {capacity} is less than {SOCKET_FRAMES}: 36 frames may be under way on a \
            link; give the network capacity {SOCKET_FRAMES} or more"
        )
    }
}

/// How a node's process ended. Printed, it is what follows the node in the line that says so.
#[derive(Clone, Copy)]
pub enum End {
    /// With this status.
    Status(u32),
    /// By this signal.
    Signal(u32),
    /// In a way that the system does not report.
    Unknown,
    /// It could not be started.
    Unstarted,
}

/// The line that says that a node's process ended, and starts again.
#[derive(Drop)]
pub struct EndLine {
    /// The node.
    pub id: u16,
    /// How it ended.
    pub end: End,
}

impl fmt::Display for EndLine {
    ghost output = { λ line. Some (end_line line.id line.end) };

    fn fmt<W: fmt::Write>(&self, f: &mut fmt::Formatter<W>) -> fmt::Result {
        write!(f, "node {}{}", self.id, self.end)
    }
}

impl fmt::Display for End {
    ghost output = { λ end. Some (end_text end) };

    fn fmt<W: fmt::Write>(&self, f: &mut fmt::Formatter<W>) -> fmt::Result {
        match *self {
            End::Status(status) => {
                write!(f, " ended with status {status}, and is started again")
            }
            End::Signal(signal) => {
                write!(f, " was ended by signal {signal}, and is started again")
            }
            End::Unknown => f.write_str(" ended, and is started again"),
            End::Unstarted => f.write_str(" cannot be started; it is tried again"),
        }
    }
}
