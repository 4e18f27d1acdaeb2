//! Waiting for sockets and for standard input at once.
ghost use Rattle.std.specs.Prelude.{◌≡◌, IfOk};
ghost use Rattle.lock_command.specs.Watching.{has_input, IsWatched, IsTaken, IsAwaited};
ghost use Rattle.lock_command.specs.declared.waiter.InputWatch.TheVariants.{Not};

use mio::event::Source;
use mio::net::UnixStream;
use mio::unix::SourceFd;
use mio::{Events, Interest, Poll, Token};
use std::alloc::Global;
use std::io;
use std::net::Net;
use std::time::Duration;

/// The descriptor of standard input.
const INPUT: i32 = 0;

/// The tokens in the poll of all that is waited for.
const DESK: Token = Token(0);

const STANDARD_INPUT: Token = Token(1);

const GUARD: Token = Token(2);

/// Waits for a desk's connection and, once asked to, for a guard and for standard input. No
/// contract covers what the system says of them.
#[derive(Drop)]
pub struct Waiter {
    poll: Poll,
    events: Events<Global>,
    input: InputWatch,
}

/// How standard input is watched.
#[derive(Clone, Copy, Drop)]
enum InputWatch {
    /// Not at all.
    Not,
    /// The system says when it has something to read.
    Waiting,
    /// The system said so.
    Ready,
    /// A poll cannot wait for it (a file, say), so it is always ready.
    Always,
}

impl InputWatch {
    /// How standard input is watched after the system was asked to watch it, and perhaps refused.
    fn after(is_registered: bool) -> InputWatch
        ensures { IsWatched result }
    {
        if is_registered {
            InputWatch::Waiting
        } else {
            InputWatch::Always
        }
    }
}

impl Waiter {
    /// Waits only for a connection.
    ///
    /// # Errors
    /// What the system answers; `OutOfMemory`.
    pub fn new<R: Net>(rt: &R, alloc: Global, desk: &mut UnixStream) -> io::Result<Waiter>
        ensures { IfOk result (λ waiter. waiter.input ≡ Not) }
    {
        let waiter = Waiter {
            poll: Poll::new(rt)?,
            events: Events::with_capacity(alloc, 4)?,
            input: InputWatch::Not,
        };
        waiter.watch(desk)?;
        Ok(waiter)
    }

    /// Waits for this connection from now on, as the desk's.
    ///
    /// # Errors
    /// What the system answers.
    pub fn watch(&self, desk: &mut UnixStream) -> io::Result<()> {
        self.poll
            .registry()
            .register(desk, DESK, Interest::READABLE)
    }

    /// Waits for a guard too, from now on.
    ///
    /// # Errors
    /// What the system answers.
    pub fn watch_guard(&self, guard: &mut UnixStream) -> io::Result<()> {
        self.poll
            .registry()
            .register(guard, GUARD, Interest::READABLE)
    }

    /// Waits for standard input too, from now on.
    pub fn watch_input(&mut self)
        ensures { IsWatched self.new.input }
    {
        self.ask_for_input(true);
    }

    /// Whether standard input has something to read, or has ended. The caller reads it once.
    pub fn takes_input(&mut self) -> bool
        ensures takes { result ≡ has_input self.old.input }
        ensures after { IsTaken self.old.input self.new.input }
    {
        match self.input {
            InputWatch::Not | InputWatch::Waiting => false,
            InputWatch::Always => true,
            InputWatch::Ready => {
                self.ask_for_input(false);
                true
            }
        }
    }

    /// Asks the system, for the first time or again, to say when standard input has something to read: at
    /// once, if something is there.
    fn ask_for_input(&mut self, is_first: bool)
        ensures { IsWatched self.new.input }
    {
        let registry = self.poll.registry();
        let mut input = SourceFd(&INPUT);
        let registered = if is_first {
            registry.register(&mut input, STANDARD_INPUT, Interest::READABLE)
        } else {
            registry.reregister(&mut input, STANDARD_INPUT, Interest::READABLE)
        };
        self.input = InputWatch::after(registered.is_ok());
    }

    /// Waits until something comes, for at most `millis` milliseconds.
    pub fn wait(&mut self, millis: u64)
        ensures { IsAwaited self.old.input self.new.input }
    {
        let rest = match self.input {
            InputWatch::Always => 0,
            _ => millis,
        };
        if self
            .poll
            .poll(&mut self.events, Some(Duration::from_millis(rest)))
            .is_err()
        {
            return;
        }
        if self.input == InputWatch::Waiting
            && self
                .events
                .iter()
                .any(|event| event.token() == STANDARD_INPUT)
        {
            self.input = InputWatch::Ready;
        }
    }
}
