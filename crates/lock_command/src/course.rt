//! What is due when, during one acquisition of the lock.
ghost use Rattle.std.specs.Prelude.{◌≡◌};
ghost use Rattle.lock_command.specs.Course.{new_course, timed, connected, closed, started};
ghost use Rattle.lock_command.specs.Course.{given_back, asked_to_end, is_past, without_due};
ghost use Rattle.lock_command.specs.Course.{killed_again, lacks_room, left_of, age_of};

/// How many milliseconds the node has to say that it took the lock back.
const WORD: u64 = 10_000;

/// How many milliseconds a command that was asked to end may run on before it is killed.
const GRACE: u64 = 3_000;

/// After how many milliseconds whatever is left is killed again: it may have started more processes
/// by then.
const KILL_AGAIN: u64 = 1_000;

/// How many milliseconds pass between two looks for what a command started.
const FAMILY_REST: u64 = 100;

/// How many milliseconds the connection after a closed one must last before the node counts as
/// having room for it.
const CLOSING: u64 = 500;

/// What time it is, and what is due when: in milliseconds since the lock was asked for.
#[derive(Clone, Copy, Debug)]
pub struct Course {
    time: u64,
    /// When the connection was made.
    connected: u64,
    /// Whether the node has closed a connection.
    was_closed: bool,
    /// When the command was started, or the lock was granted.
    started: u64,
    /// When the time to wait for an answer is up.
    due: Option<u64>,
    /// When a command that was asked to end is killed.
    kill_due: Option<u64>,
}

impl Course {
    /// The course when the lock is asked for. The client waits at most `limit` milliseconds for the
    /// lock, or without limit if there is none.
    pub fn new(limit: Option<u32>) -> Course
        ensures { result ≡ new_course limit }
    {
        Course {
            time: 0,
            connected: 0,
            was_closed: false,
            started: 0,
            due: limit.map(u64::from),
            kill_due: None,
        }
    }

    /// Sets the time. The clock never goes back.
    pub fn set_time(&mut self, now: u64)
        ensures { self.new ≡ timed now self.old }
    {
        if self.time < now {
            self.time = now;
        }
    }

    /// Notes that the node closed the connection.
    pub fn note_closed(&mut self)
        ensures { self.new ≡ closed self.old }
    {
        self.was_closed = true;
    }

    /// Notes that there is a connection again.
    pub fn note_connected(&mut self)
        ensures { self.new ≡ connected self.old }
    {
        self.connected = self.time;
    }

    /// Notes that the lock is granted and the command is started: no answer is due.
    pub fn start(&mut self)
        ensures { self.new ≡ started self.old }
    {
        self.due = None;
        self.started = self.time;
    }

    /// Notes that the lock is released: the node's word is due.
    pub fn give_back(&mut self)
        ensures { self.new ≡ given_back self.old }
    {
        self.due = Some(self.time.saturating_add(WORD));
    }

    /// Notes that the command is asked to end, and when it is killed.
    pub fn ask_to_end(&mut self)
        ensures { self.new ≡ asked_to_end self.old }
    {
        self.kill_due = Some(self.time.saturating_add(GRACE));
    }

    /// Whether the time is up. It says so once.
    pub fn takes_time_up(&mut self) -> bool
        ensures up { result ≡ is_past self.old.due self.old.time }
        ensures once { self.new ≡ without_due result self.old }
    {
        let is_up = is_past(self.due, self.time);
        if is_up {
            self.due = None;
        }
        is_up
    }

    /// Whether to kill the command now. It says so again a second later.
    pub fn takes_kill(&mut self) -> bool
        ensures due { result ≡ is_past self.old.kill_due self.old.time }
        ensures again { self.new ≡ killed_again result self.old }
    {
        let is_due = is_past(self.kill_due, self.time);
        if is_due {
            self.kill_due = Some(self.time.saturating_add(KILL_AGAIN));
        }
        is_due
    }

    /// Whether the node has no room for a client: it closed a connection, and the next one has not
    /// lasted half a second.
    pub fn lacks_room(&self) -> bool
        ensures { result ≡ lacks_room self.now }
    {
        self.was_closed && self.time.saturating_sub(self.connected) < CLOSING
    }

    /// How many milliseconds a running command has run; none if no command runs.
    pub fn age(&self, is_running: bool) -> Option<u64>
        ensures { result ≡ age_of is_running self.now }
    {
        if is_running {
            Some(self.time.saturating_sub(self.started))
        } else {
            None
        }
    }

    /// In how many milliseconds the time to wait for an answer is up; none if no answer is due. If
    /// the lock waits for what the command started, that is the next look for it instead. The time
    /// to kill a command does not count.
    pub fn left(&self, is_family: bool) -> Option<u64>
        ensures { result ≡ left_of is_family self.now }
    {
        if is_family {
            Some(FAMILY_REST)
        } else {
            self.due.map(|due| due.saturating_sub(self.time))
        }
    }
}

/// Whether something is due.
fn is_past(due: Option<u64>, now: u64) -> bool
    ensures { result ≡ is_past due now }
{
    match due {
        Some(due) => due <= now,
        None => false,
    }
}
