//! The ends of connections that nodes hold.
ghost use Rattle.std.specs.Prelude.{◌≡◌, ◌≤◌, length};

use super::replays::account::{Deed, LINE, Line};
use super::replays::desk::Desk;
use super::stage::{Mistake, Stage};
use super::wires::{Pair, ROOM, Wire};
use socket_links::{Pipe, ReadAnswer, WriteAnswer};
use std::cell::Cell;

/// What is noted of the calls at an end.
#[derive(Clone, Copy)]
pub enum Part<'a> {
    /// Nothing is noted.
    Unseen,
    /// Frames between this node and a neighbour, on the connection with this place.
    Link { here: u16, there: u16, place: usize },
    /// What the client with this ticket does.
    Client(&'a Desk, u16),
}

/// The end of a connection that a node holds. Dropping it closes both directions; if frames are
/// noted, it breaks the connection, and all that was on its wires is lost.
pub struct End<'a> {
    pair: &'a Pair,
    /// Whether the node is the newcomer.
    is_newcomer: bool,
    stage: &'a Stage,
    part: Part<'a>,
    /// What has been given of the current line so far.
    given: Wire,
    /// How many bytes of the accepted line are not yet on the wire.
    unsent: Cell<usize>,
    /// Whether the node has left the client.
    has_left: Cell<bool>,
    later: u64,
    closed: u64,
    failed: u64,
}

impl<'a> End<'a> {
    pub fn new(pair: &'a Pair, is_newcomer: bool, stage: &'a Stage, part: Part<'a>) -> End<'a> {
        End {
            pair,
            is_newcomer,
            stage,
            part,
            given: Wire::new(),
            unsent: Cell::new(0),
            has_left: Cell::new(false),
            later: 0,
            closed: 0,
            failed: 0,
        }
    }

    /// The wire that it reads.
    fn near(&self) -> &Wire {
        if self.is_newcomer {
            &self.pair.down
        } else {
            &self.pair.up
        }
    }

    /// The wire to which it writes.
    fn far(&self) -> &Wire {
        if self.is_newcomer {
            &self.pair.up
        } else {
            &self.pair.down
        }
    }

    /// Counts a call, and says whether it fails.
    fn fails(&self) -> bool {
        self.stage.trips() || self.pair.fails()
    }

    /// Notes the first time that the node leaves a client, or is about to.
    fn leave(&self, is_heard: bool) {
        let Part::Client(_, ticket) = self.part else {
            return;
        };
        if !self.has_left.get() {
            self.has_left.set(true);
            self.stage.account.add(Deed::Leaves(ticket), is_heard);
        }
    }

    /// Notes what was read: a client's line, or the end of a frame's line.
    fn hear(&self, bytes: &[u8]) {
        match self.part {
            Part::Unseen => {}
            Part::Client(_, ticket) => self.hear_client(ticket, bytes),
            Part::Link { here, there, place } => {
                let (from, to, mut frame) = (there, here, [0; LINE]);
                self.given.write(bytes, ROOM);
                if bytes.last() == Some(&b'\n') && self.given.read(&mut frame, true) == LINE {
                    self.take(Line {
                        from,
                        to,
                        place,
                        frame,
                    });
                }
            }
        }
    }

    /// Notes what a client said.
    fn hear_client(&self, ticket: u16, bytes: &[u8]) {
        match bytes {
            b"lock\n" if !self.stage.errs(Mistake::Unasked) => {
                self.stage.account.add(Deed::Asks(ticket), true);
            }
            b"unlock\n" => self.stage.account.add(Deed::Leaves(ticket), true),
            _ => {}
        }
    }

    /// Notes a frame that was given whole.
    fn take(&self, line: Line) {
        if !self.stage.errs(Mistake::Untaken) {
            self.stage.account.add(Deed::Takes(line), true);
        }
        if self.stage.errs(Mistake::Twice) {
            self.near().put_back(&line.frame);
        }
    }

    /// Notes a frame that the link accepts, at the first call with it.
    fn accept(&self, bytes: &[u8]) {
        let Part::Link { here, there, place } = self.part else {
            return;
        };
        if self.unsent.get() > 0 {
            return;
        }
        self.unsent.set(bytes.len());
        if bytes.len() == LINE {
            let (from, to, mut frame) = (here, there, [0; LINE]);
            frame.copy_from_slice(bytes);
            let sent = Deed::Sends(Line {
                from,
                to,
                place,
                frame,
            });
            self.stage.account.add(sent, false);
        }
    }

    /// Writes as far as there is room. A client whose deeds are noted takes all.
    fn write(&self, bytes: &[u8]) -> usize
        ensures { result ≤ length bytes.now }
    {
        if matches!(self.part, Part::Client(_, _)) {
            return bytes.len();
        }
        if bytes.len() == LINE && self.stage.errs(Mistake::Dropped) {
            self.unsent.set(0);
            return bytes.len();
        }
        let count = self.far().write(bytes, self.stage.room);
        self.unsent.set(self.unsent.get().saturating_sub(count));
        count
    }

    /// What happens when it is dropped.
    fn end(&self) {
        self.pair.up.is_closed.set(true);
        self.pair.down.is_closed.set(true);
        match self.part {
            Part::Unseen => {}
            Part::Link { .. } => self.pair.lasts.set(0),
            Part::Client(desk, ticket) => {
                self.leave(false);
                desk.free(ticket);
            }
        }
    }
}

impl<'a> Drop for End<'a> {
    fn drop(self) {
        self.end();
        let End {
            pair: _,
            is_newcomer: _,
            stage: _,
            part: _,
            given: _,
            unsent: _,
            has_left: _,
            later: _,
            closed: _,
            failed: _,
        } = self;
    }
}

impl<'a> Pipe for End<'a> {
    ghost use Rattle.std.specs.Prelude.{None};

    ghost gave = { λ _. None };

    ghost took = { λ _. None };

    ghost counts = { λ p. record { later = p.later; closed = p.closed; failed = p.failed } };

    fn try_read(&mut self, buffer: &mut [u8]) -> ReadAnswer {
        if self.fails() {
            self.leave(true);
            self.failed = self.failed.saturating_add(1);
            return ReadAnswer::Failed;
        }
        let count = self.near().read(buffer, self.stage.is_noted());
        if count > 0 {
            self.hear(&buffer[..count]);
            return ReadAnswer::Got(count);
        }
        if self.near().is_closed.get() {
            self.leave(true);
            self.closed = self.closed.saturating_add(1);
            return ReadAnswer::Closed;
        }
        self.later = self.later.saturating_add(1);
        ReadAnswer::Later
    }

    fn try_write(&mut self, bytes: &[u8]) -> WriteAnswer {
        self.accept(bytes);
        if self.fails() || self.far().is_cut.get() {
            self.leave(false);
            self.failed = self.failed.saturating_add(1);
            return WriteAnswer::Failed;
        }
        let count = self.write(bytes);
        if count > 0 {
            return WriteAnswer::Wrote(count);
        }
        self.later = self.later.saturating_add(1);
        WriteAnswer::Later
    }
}
