//! Where a node's connections come from.
ghost use Rattle.std.specs.Prelude.{◌≤◌, ℕ};
ghost use Rattle.node_connections.specs.Doors.{Opens};

use socket_links::Pipe;

/// What a door answers.
#[derive(Drop)]
pub enum Door<P> {
    /// A new connection.
    Came(P),
    /// There is no connection now.
    Nobody,
    /// The door failed in this call.
    Failed,
}

/// Where connections come from. Of its calls only `wait` waits.
pub trait Doors: Drop {
    /// A connection.
    type P: Pipe;

    /// How often it has failed; the count may stay at 2^64 - 1.
    ghost failures: { Self → ℕ };

    /// Waits until something may have come, at most this many microseconds.
    fn wait(&mut self, rest: u64)
        ensures { failures self.old ≤ failures self.new };

    /// The next connection of a neighbour that has come.
    fn link(&mut self) -> Door<Self::P>
        ensures { Opens result (failures self.old) (failures self.new) };

    /// The next connection of a client that has come.
    fn client(&mut self) -> Door<Self::P>
        ensures { Opens result (failures self.old) (failures self.new) };

    /// A connection to this lower neighbour.
    fn connect(&mut self, neighbour: u16) -> Door<Self::P>
        ensures { Opens result (failures self.old) (failures self.new) };
}
