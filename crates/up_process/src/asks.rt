//! What asks `up` to end: signals that it holds back, and its standard input.
ghost use Rattle.std.specs.Prelude.{◌≡◌, true, false, None, IfOk};
ghost use Rattle.held_signals.specs.Signals.{no_signals};

use held_signals::{Signals, state_now};
use mio::{Events, Poll, Token};
use process_parts::{InputSight, UpSights, read_input, watch_input};
use std::io::Input;
use std::net::Net as Sockets;
use std::os::unix::process::ExitStatusExt;
use std::process::{Child, Command, OpenProcess, Processes, Stdio};
use std::rt::{Clock, Files};
use std::time::Duration;
use std::{io, thread};

/// The longest time that one look at the processes takes, in milliseconds.
const LOOK: u64 = 50;

/// How long one look takes while the processes end, in milliseconds.
const LOOK_AT_END: u64 = 10;

/// Standard input in a poll.
const INPUT: Token = Token(0);

/// How many seconds a process waits for a second Ctrl-C: longer than `up` waits for any node.
const SECONDS: &str = "9";

/// What may ask `up` to end. Signals count if any is held back. The end of standard input counts
/// if a poll can wait for it: it cannot for a file or for `/dev/null`.
#[derive(Drop)]
pub struct Asks<P: OpenProcess + Drop> {
    poll: Poll,
    events: Events,
    watches_input: bool,
    holds_signals_back: bool,
    /// A second process, which holds no signal back. A held signal shows only once, so a second
    /// Ctrl-C shows by the end of this process.
    beside: Option<Child<P>>,
}

impl<P: OpenProcess + Drop> Asks<P> {
    /// Nothing has asked yet.
    ///
    /// # Errors
    /// If the system gives no poll, or memory runs out.
    pub fn new<R: Files + Sockets + AllocGlobal>(rt: &R) -> io::Result<Asks<P>>
        ensures { IfOk result (λ asks. asks.beside ≡ None) }
    {
        let poll = Poll::new(rt)?;
        let events = Events::with_capacity(rt.alloc(), 1)?;
        Ok(Asks {
            watches_input: can_watch(&poll, true),
            holds_signals_back: state_now(rt).blocked.any(),
            poll,
            events,
            beside: None,
        })
    }

    /// Waits for at most one look, and says what asks `up` to end.
    pub fn sights<R>(&mut self, rt: &R, is_ending: bool) -> UpSights
    where
        R: Files + Clock + Input + Processes<Started = P> + AllocGlobal,
        ensures held { self.old.holds_signals_back ≡ false → result.signals ≡ no_signals }
        // An input that is not watched, or for which no poll can wait, never counts as ended.
        ensures endless { self.old.watches_input ≡ false → result.has_input_ended ≡ false }
        ensures ending { is_ending ≡ true → result.has_input_ended ≡ false }
        ensures alone { is_ending ≡ false → self.old.beside ≡ None → result.is_pressed ≡ false }
        ensures stays { self.new.holds_signals_back ≡ self.old.holds_signals_back }
    {
        let has_input_ended = if is_ending {
            self.stand_by(rt);
            false
        } else {
            self.await_input(rt)
        };
        UpSights {
            signals: self.signals(rt),
            has_input_ended,
            is_pressed: self.is_pressed(),
        }
    }

    /// Waits for standard input, and says whether it has ended.
    fn await_input<R: Clock + Input>(&mut self, rt: &R) -> bool
        ensures endless { self.old.watches_input ≡ false → result ≡ false }
        ensures stays { (self.new.holds_signals_back ≡ self.old.holds_signals_back)
            × (self.new.beside ≡ self.old.beside) }
    {
        let has_event = await_event(rt, &mut self.poll, &mut self.events);
        if !has_event || !self.watches_input {
            return false;
        }
        let sight = read_input(rt);
        self.watches_input = sight == InputSight::Open && can_watch(&self.poll, false);
        sight == InputSight::Ended
    }

    /// Waits while the nodes end. A second Ctrl-C ends the process beside this one.
    fn stand_by<R: Clock + Processes<Started = P> + AllocGlobal>(&mut self, rt: &R)
        ensures { self.new.holds_signals_back ≡ self.old.holds_signals_back }
    {
        if self.beside.is_none() && self.holds_signals_back {
            begin_sleeper(rt, &mut self.beside);
        }
        thread::sleep(rt, Duration::from_millis(LOOK_AT_END));
    }

    /// The held signals that came and mean something to this process.
    fn signals<R: Files + AllocGlobal>(&self, rt: &R) -> Signals
        ensures { self.now.holds_signals_back ≡ false → result ≡ no_signals }
    {
        if self.holds_signals_back {
            state_now(rt).heeded()
        } else {
            Signals::none()
        }
    }

    /// Whether a signal ended the process beside this one.
    fn is_pressed(&mut self) -> bool
        ensures alone { self.old.beside ≡ None → result ≡ false }
        ensures stays { self.new.holds_signals_back ≡ self.old.holds_signals_back }
    {
        match &mut self.beside {
            Some(child) => was_ended_by_signal(child),
            None => false,
        }
    }

    /// Ends the process beside this one.
    pub fn close(&mut self) {
        if let Some(child) = &mut self.beside {
            end_process(child);
        }
    }
}

/// Whether this poll waits for standard input from now on. `is_first` says whether it did not do so
/// before.
fn can_watch(poll: &Poll, is_first: bool) -> bool {
    watch_input(poll.registry(), INPUT, is_first).is_ok()
}

/// Waits for at most one look, and says whether there is an event.
fn await_event<R: Clock>(rt: &R, poll: &mut Poll, events: &mut Events) -> bool {
    let rest = Duration::from_millis(LOOK);
    if poll.poll(events, Some(rest)).is_ok() {
        !events.is_empty()
    } else {
        thread::sleep(rt, rest);
        false
    }
}

/// Whether a signal ended this process.
fn was_ended_by_signal<P: OpenProcess + Drop>(child: &mut Child<P>) -> bool {
    match child.try_wait() {
        Ok(Some(status)) => status.signal().is_some(),
        Ok(None) | Err(_) => false,
    }
}

/// Ends this process.
fn end_process<P: OpenProcess + Drop>(child: &mut Child<P>) {
    let _ = child.kill();
    let _ = child.wait();
}

/// Starts a process that waits and holds no signal back, if possible.
fn begin_sleeper<R: Processes + AllocGlobal>(rt: &R, beside: &mut Option<Child<R::Started>>) {
    *beside = sleeper(rt).ok();
}

/// A process that waits, and holds no signal back.
fn sleeper<R: Processes + AllocGlobal>(rt: &R) -> io::Result<Child<R::Started>> {
    let mut command = Command::new(rt.alloc(), "sleep")?;
    let child = spawn_sleeper(rt, &mut command);
    drop(command);
    child
}

/// Starts the command that waits, for `SECONDS` seconds.
fn spawn_sleeper<R: Processes>(rt: &R, command: &mut Command) -> io::Result<Child<R::Started>> {
    command.arg(SECONDS)?;
    command.stdin(Stdio::null()).stdout(Stdio::null());
    command.spawn(rt)
}
