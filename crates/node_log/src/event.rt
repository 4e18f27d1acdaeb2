//! What a node says of itself, and how urgent it is.
ghost use Rattle.std.specs.Prelude.{◌≡◌};
ghost use Rattle.node_log.specs.Events.{level_of, level_with, priority_of, is_said_at};

/// What a node may say of itself.
#[derive(Clone, Copy)]
pub enum NodeEvent {
    /// Its sockets listen, and its turns begin.
    Begins,
    /// It ends.
    Ends,
    /// A connection to this neighbour stands.
    Up(u16),
    /// No connection to this neighbour stands any more.
    Down(u16),
    /// The client with this ticket was granted the lock.
    Granted(u16),
    /// The client with this ticket lost the lock: its lease was over, or the node was damaged.
    Lost(u16),
    /// The client with this ticket gave the lock back, or went away.
    GivenBack(u16),
    /// 64 clients wait, the most that may: further ones are refused.
    Full,
    /// At most half as many wait now: clients may wait again.
    Room,
    /// 128 clients are connected, the most that may be: a further one was closed.
    Crowded,
    /// At most half as many are connected now: clients may connect again.
    Seats,
    /// Its distance or parent has not been that of the network for two seconds.
    Astray,
    /// Both are those of the network again.
    InPlace,
}

/// How urgent an event is.
#[derive(Clone, Copy)]
pub enum Level {
    /// Something is amiss.
    Warning,
    /// All is well, and something changed that may interest an operator.
    Notice,
    /// What goes on all the time.
    Info,
}

impl NodeEvent {
    /// How urgent the event is.
    pub fn level(self) -> Level
        ensures { result ≡ level_of self }
    {
        match self {
            NodeEvent::Down(_)
            | NodeEvent::Lost(_)
            | NodeEvent::Full
            | NodeEvent::Crowded
            | NodeEvent::Astray => { Level::Warning }
            NodeEvent::Begins | NodeEvent::Ends | NodeEvent::Up(_) => Level::Notice,
            NodeEvent::Room | NodeEvent::Seats | NodeEvent::InPlace => Level::Notice,
            NodeEvent::Granted(_) | NodeEvent::GivenBack(_) => Level::Info,
        }
    }
}

impl Level {
    /// The level of this priority, by the numbers of syslog; none if no level has it.
    pub fn of_priority(priority: u64) -> Option<Level>
        ensures { result ≡ level_with priority }
    {
        match priority {
            4 => Some(Level::Warning),
            5 => Some(Level::Notice),
            6 => Some(Level::Info),
            _ => None,
        }
    }

    /// Its priority, by the numbers of syslog: the lower, the more urgent.
    pub fn priority(self) -> u8
        ensures { result ≡ priority_of self }
    {
        match self {
            Level::Warning => 4,
            Level::Notice => 5,
            Level::Info => 6,
        }
    }

    /// Whether a log that goes down to `least` says events of this level.
    pub fn is_said_at(self, least: Level) -> bool
        ensures { result ≡ is_said_at self least }
    {
        self.priority() <= least.priority()
    }
}
