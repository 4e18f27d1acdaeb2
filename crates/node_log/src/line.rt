//! A line of a node's log.
ghost use Rattle.std.specs.Prelude.{Some};
ghost use Rattle.node_log.specs.Line.{log_line, left_out_text, event_text};
ghost use Rattle.node_log.specs.Line.{level_text, link_text, ticket_text};

use crate::event::{Level, NodeEvent};
use std::fmt;

/// A line of a node's log, without a newline.
#[derive(Clone, Copy)]
pub struct LogLine {
    /// The node.
    pub id: u16,
    /// What it says.
    pub event: NodeEvent,
    /// How many lines were left out before.
    pub left_out: u64,
    /// Whether its priority stands in front, as journals read it.
    pub has_priority: bool,
}

impl fmt::Display for LogLine {
    ghost output = { λ line. Some (log_line line.id line.event line.left_out line.has_priority) };

    fn fmt<W: fmt::Write>(&self, f: &mut fmt::Formatter<W>) -> fmt::Result {
        if self.has_priority {
            f.write(Priority(self.event.level()))?;
        }
        let (id, event, left_out) = (self.id, self.event, LeftOut(self.left_out));
        write!(f, "tokentree: node {id}: {event}{left_out}")
    }
}

/// How urgent a line is, as journals read it in front of the line.
#[derive(Drop)]
struct Priority(Level);

impl fmt::Display for Priority {
    ghost output = { λ priority. Some (level_text priority.0) };

    fn fmt<W: fmt::Write>(&self, f: &mut fmt::Formatter<W>) -> fmt::Result {
        write!(f, "<{}>", self.0.priority())
    }
}

impl fmt::Display for NodeEvent {
    ghost output = { λ event. Some (event_text event) };

    fn fmt<W: fmt::Write>(&self, f: &mut fmt::Formatter<W>) -> fmt::Result {
        match *self {
            NodeEvent::Begins => f.write_str("begins"),
            NodeEvent::Ends => f.write_str("ends"),
            NodeEvent::Up(id) => f.write(LinkIs(id, "up")),
            NodeEvent::Down(id) => f.write(LinkIs(id, "down")),
            NodeEvent::Granted(ticket) => f.write(TicketOf(ticket, "is granted the lock")),
            NodeEvent::Lost(ticket) => f.write(TicketOf(ticket, "has lost the lock")),
            NodeEvent::GivenBack(ticket) => f.write(TicketOf(ticket, "has given the lock back")),
            NodeEvent::Full => f.write_str("64 clients wait, and further ones are refused"),
            NodeEvent::Room => f.write_str("clients may wait again"),
            NodeEvent::Crowded => {
                f.write_str("128 clients are connected, and further ones are closed")
            }
            NodeEvent::Seats => f.write_str("clients may connect again"),
            NodeEvent::Astray => f.write_str("its distance or parent has been wrong for 2 s"),
            NodeEvent::InPlace => f.write_str("its distance and parent are right again"),
        }
    }
}

/// How the link to this neighbour is.
#[derive(Drop)]
struct LinkIs(u16, &'static str);

impl fmt::Display for LinkIs {
    ghost output = { λ link. Some (link_text link.0 link.1.now) };

    fn fmt<W: fmt::Write>(&self, f: &mut fmt::Formatter<W>) -> fmt::Result {
        write!(f, "the link to node {} is {}", self.0, self.1)
    }
}

/// What became of the client with this ticket.
#[derive(Drop)]
struct TicketOf(u16, &'static str);

impl fmt::Display for TicketOf {
    ghost output = { λ ticket. Some (ticket_text ticket.0 ticket.1.now) };

    fn fmt<W: fmt::Write>(&self, f: &mut fmt::Formatter<W>) -> fmt::Result {
        write!(f, "ticket {} {}", self.0, self.1)
    }
}

/// How many lines were left out, if any.
#[derive(Drop)]
struct LeftOut(u64);

impl fmt::Display for LeftOut {
    ghost output = { λ line. Some (left_out_text line.0) };

    fn fmt<W: fmt::Write>(&self, f: &mut fmt::Formatter<W>) -> fmt::Result {
        let count = self.0;
        if count > 0 {
            write!(f, " ({count} lines were left out before)")
        } else {
            Ok(())
        }
    }
}
