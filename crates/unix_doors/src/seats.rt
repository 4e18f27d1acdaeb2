//! How many clients are connected, and how many were too many.
ghost use Rattle.std.specs.Prelude.{◌≡◌, ◌⊎◌, IfOk};
ghost use Rattle.unix_doors.specs.Seats.{closed_after};

use crate::pipe::UnixPipe;
use std::alloc::{AllocError, Global};
use std::rc::Rc;

/// The most clients that may be connected. The crate `node_connections` closes a further one as soon as it has
/// come.
const PLACES: usize = 128;

/// What the connection of a client holds until it is closed.
pub(crate) type HeldSeat = Rc<()>;

/// What is seen of the clients that come to a node.
#[derive(Clone, Copy)]
pub struct ClientSight {
    /// How many are connected.
    pub connected: usize,
    /// How many came since the last look when 128 were connected, and were closed at once.
    pub closed: u64,
}

/// The seats of the clients that are connected.
#[derive(Drop)]
pub(crate) struct Seats {
    /// Each connection of a client holds a clone.
    shared: HeldSeat,
    /// How many clients were closed at once since the last look.
    closed: u64,
}

impl Seats {
    /// No client has come.
    pub fn new(alloc: Global) -> Result<Seats, AllocError>
        ensures { IfOk result (λ seats. seats.closed ≡ 0) }
    {
        match Rc::new(alloc, ()) {
            Ok(shared) => Ok(Seats { shared, closed: 0 }),
            Err(_) => Err(AllocError),
        }
    }

    /// How many clients are connected.
    fn taken(&self) -> usize {
        Rc::strong_count(&self.shared) - 1
    }

    /// Notes a client that comes when this many are connected.
    fn note_comer(&mut self, connected: usize)
        ensures { self.new ≡ record self.old { closed = closed_after connected self.old.closed } }
    {
        if connected >= PLACES {
            self.closed = self.closed.saturating_add(1);
        }
    }

    /// A client has come, and takes a seat until its connection is closed.
    pub fn take(&mut self, pipe: UnixPipe) -> UnixPipe
        // At most this one is closed, if 128 are connected.
        ensures closed { (self.new.closed ≡ self.old.closed)
            ⊎ (self.new.closed ≡ closed_after 128 self.old.closed) }
        ensures pipe { (result.later ≡ pipe.later) × (result.closed ≡ pipe.closed)
            × (result.failed ≡ pipe.failed) }
    {
        let connected = self.taken();
        self.note_comer(connected);
        match self.shared.clone() {
            Ok(seat) => pipe.with_seat(seat),
            Err(_) => pipe,
        }
    }

    /// What is seen of the clients now. What is closed later counts for the next look.
    pub fn look(&mut self) -> ClientSight
        ensures closed { result.closed ≡ self.old.closed }
        ensures again { self.new ≡ record self.old { closed = 0 } }
    {
        let closed = self.closed;
        self.closed = 0;
        ClientSight {
            connected: self.taken(),
            closed,
        }
    }
}
