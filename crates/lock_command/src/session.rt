//! One acquisition of the lock.
ghost use Rattle.std.specs.Prelude.{◌≡◌, ◌≢◌, None, Some, IfOk, IfErr, IfSome, is_some, true, false};
ghost use Rattle.held_signals.specs.Signals.{holds, including};
ghost use Rattle.lock_client.specs.declared.client.ClientEvent.TheVariants.{Ended};
ghost use Rattle.lock_client.specs.declared.client.ClientDeed.TheVariants.{Start, ConnectAgain};
ghost use Rattle.lock_client.specs.declared.outcome.CommandEnd.{CommandEnd};
ghost use Rattle.lock_command.specs.Coming.{Comes, Stays};
ghost use Rattle.lock_command.specs.declared.desk.DeskAnswer.TheVariants.{Nothing};
ghost use Rattle.lock_command.specs.Course.{lacks_room, asked_course, started, asked_to_end, IsCourseAfter};
ghost use Rattle.lock_command.specs.Notices.{vain_notice, no_wait_notice};
ghost use Rattle.lock_command.specs.Reaching.{IsUnbegun};
ghost use Rattle.lock_command.specs.Working.{is_running, signal_event, after_signal};

use crate::course::Course;
use crate::desk::{DeskAnswer, DeskConnection};
use crate::driver::Surroundings;
use crate::family::{new_mark, with_marks_before};
use crate::guard_link::GuardLink;
use crate::instants::MillisecondClock;
use crate::lock::{Request, desk_of};
use crate::notice::{
    Fate, Notice, NoticeLine, course_notice, end_notice, loss_notice, why_unserved,
};
use crate::rest::rest;
use crate::seconds::Seconds;
use crate::system::System;
use crate::waiter::Waiter;
use crate::work::{Work, start};
use held_signals::{Signal, Signals, state_now};
use lock_client::{ClientDeed, ClientEvent, CommandEnd, Outcome, spawn_end};
use lock_desk::ClientLine;
use std::io::{ErrorKind, Input};
use std::net::Net;
use std::os::fd::AsFd;
use std::process::{OpenProcess, Processes};
use std::rt::{Env, Files};
use std::sync::Wait;
use std::time::{Clock, Duration};
use std::{io, thread};

/// How many milliseconds a client rests before it asks again, if the desk was full or closed the
/// connection.
const FULL_REST: u64 = 100;

/// One acquisition of the lock: the connection, the command and its guard, and what is due.
#[derive(Drop)]
pub struct Session<'a, P: OpenProcess> {
    request: Request<'a>,
    /// The node that is asked.
    node: u16,
    /// The connection; none once it is gone.
    desk: Option<DeskConnection>,
    /// Whether a write to the connection failed, and that is not reported yet.
    has_failed: bool,
    /// Whether a new connection failed, and that is not reported yet.
    is_unserved: bool,
    waiter: Waiter,
    work: Work<P>,
    /// The guard of the command. It starts while the client waits for the lock, so that the
    /// command need not wait for it. None if that failed, and once the command has ended.
    guard: Option<GuardLink>,
    /// The mark of the command and of whatever it starts.
    mark: String,
    /// Whether to wait for the end of whatever the command started, too.
    awaits_family: bool,
    /// Whether signals are held back, so that it must look for them.
    holds_signals_back: bool,
    /// The signals already seen.
    seen: Signals,
    stopwatch: MillisecondClock,
    /// What time it is, and what is due.
    course: Course,
}

/// A session and the system that it runs on.
#[derive(Drop)]
pub struct Live<'a, R, S> {
    /// The system.
    pub rt: &'a R,
    /// The session.
    pub session: S,
}

impl<'a, R: System> Surroundings for Live<'_, R, Session<'a, R::Started>> {
    ghost reported = { λ _. None };

    ghost runs = { λ live. is_running live.session.work };

    fn next_event(&mut self) -> ClientEvent
        ensures starts_none { is_running self.new.session.work ≡ true
            → is_running self.old.session.work ≡ true }
        ensures ended { (end : CommandEnd) → result ≡ Ended end
            → is_running self.new.session.work ≡ false }
        ensures comes { Comes result self.old.session self.new.session }
    {
        self.session.wait_for_event(self.rt)
    }

    fn act(&mut self, event: ClientEvent, deed: ClientDeed)
        ensures starts { deed ≢ Start
            → is_running self.new.session.work ≡ is_running self.old.session.work }
        // The course changes only as this deed says.
        ensures course { IsCourseAfter deed self.old.session.course self.new.session.course }
    {
        self.session.do_deed(self.rt, event, deed)
    }
}

impl<'a, P: OpenProcess + Drop> Session<'a, P> {
    /// Asks for the lock on this connection.
    ///
    /// # Errors
    /// If the system gives no clock or poll, or memory runs out.
    pub fn new<R: Env + Net + Files + Clock + AllocGlobal>(
        rt: &R,
        request: Request<'a>,
        mut desk: DeskConnection,
    ) -> Result<Session<'a, P>, Notice<'a>>
        ensures node { IfOk result (λ s. s.node ≡ desk.node) }
        ensures course { IfOk result (λ s. s.course ≡ asked_course request.entry.limit) }
        ensures runs { IfOk result (λ s. is_running s.work ≡ false) }
        ensures why { IfErr result IsUnbegun }
    {
        let node = desk.node();
        let Some(stopwatch) = MillisecondClock::start(rt) else {
            return Err(Notice::System);
        };
        let Ok(mark) = new_mark(rt) else {
            return Err(Notice::Memory);
        };
        let waiter = waiter_for(rt, &mut desk)?;
        let mut session = Session::waiting(request, node, desk, stopwatch, mark, waiter);
        session.write_line(ClientLine::Lock);
        session.holds_signals_back = state_now(rt).blocked.any();
        Ok(session)
    }

    /// Waits for the lock on this connection to the desk of this node.
    fn waiting(
        request: Request<'a>,
        node: u16,
        desk: DeskConnection,
        stopwatch: MillisecondClock,
        mark: String,
        waiter: Waiter,
    ) -> Session<'a, P>
        ensures node { result.node ≡ node }
        ensures course { result.course ≡ asked_course request.entry.limit }
        ensures runs { is_running result.work ≡ false }
    {
        Session {
            request,
            node,
            desk: Some(desk),
            has_failed: false,
            is_unserved: false,
            waiter,
            work: Work::None,
            guard: None,
            mark,
            awaits_family: request.waits_for_children,
            holds_signals_back: false,
            seen: Signals::none(),
            stopwatch,
            course: Course::new(request.limit.map(|limit| limit.millis)),
        }
    }

    /// Waits for the next event. What the node says comes first.
    fn wait_for_event<R: Files + Processes + Clock + Input + Eprint + AllocGlobal + Wait>(
        &mut self,
        rt: &R,
    ) -> ClientEvent
        ensures starts_none { is_running self.new.work ≡ true → is_running self.old.work ≡ true }
        ensures ended { (end : CommandEnd) → result ≡ Ended end → is_running self.new.work ≡ false }
        ensures comes { Comes result self.old self.new }
    {
        for _ in rt.forever() {
            self.look_at_the_clock(rt);
            if let Some(event) = self.from_others() {
                return event;
            }
            if let Some(event) = self.from_here(rt) {
                return event;
            }
            self.wait_a_while();
        }
        unreachable!()
    }

    /// Notes the time, and kills a command whose grace is over. A clock that cannot be read stands
    /// still.
    fn look_at_the_clock<R: Files + Processes + Clock + AllocGlobal>(&mut self, rt: &R)
        ensures work { is_running self.new.work ≡ is_running self.old.work }
        ensures stays { Stays self.old self.new }
    {
        let now = self.stopwatch.millis(rt);
        self.course.set_time(now);
        if self.course.takes_kill() {
            self.work.kill(rt, self.mark.as_str());
        }
    }

    /// An event from the node or the guard.
    fn from_others(&mut self) -> Option<ClientEvent>
        ensures work { self.new.work ≡ self.old.work }
        ensures ended { (end : CommandEnd) → result ≢ Some (Ended end) }
        ensures comes { IfSome result (λ event. Comes event self.old self.new) }
        ensures stays { result ≡ None → Stays self.old self.new }
    {
        if self.is_unserved {
            self.is_unserved = false;
            return Some(ClientEvent::Unserved);
        }
        match self.heard_from_node() {
            DeskAnswer::Line(answer) => return Some(ClientEvent::Line(answer)),
            DeskAnswer::Gone => {
                self.desk = None;
                self.has_failed = false;
                self.course.note_closed();
                return Some(ClientEvent::Gone);
            }
            DeskAnswer::Nothing => {}
        }
        if self.has_lost_its_guard() {
            self.guard = None;
            return Some(ClientEvent::GuardGone);
        }
        None
    }

    /// What the node says.
    fn heard_from_node(&mut self) -> DeskAnswer
        ensures work { self.new.work ≡ self.old.work }
        ensures desk { result ≢ Nothing → is_some self.old.desk ≡ true }
        ensures stays { Stays self.old self.new }
    {
        match &mut self.desk {
            Some(_) if self.has_failed => DeskAnswer::Gone,
            Some(desk) => desk.hear(),
            None => DeskAnswer::Nothing,
        }
    }

    /// Whether there is a guard that has ended.
    fn has_lost_its_guard(&mut self) -> bool
        ensures work { self.new.work ≡ self.old.work }
        ensures guard { result ≡ true → is_some self.old.guard ≡ true }
        ensures stays { Stays self.old self.new }
    {
        match &mut self.guard {
            Some(guard) => guard.is_gone(),
            None => false,
        }
    }

    /// An event from the user, the command or the clock.
    fn from_here<R: Files + Input + Eprint + AllocGlobal>(&mut self, rt: &R) -> Option<ClientEvent>
        ensures starts_none { is_running self.new.work ≡ true → is_running self.old.work ≡ true }
        ensures ended { (end : CommandEnd) → result ≡ Some (Ended end)
            → is_running self.new.work ≡ false }
        ensures comes { IfSome result (λ event. Comes event self.old self.new) }
        ensures stays { result ≡ None → Stays self.old self.new }
    {
        if let Some(signal) = self.new_signal(rt) {
            return Some(self.event_of_signal(signal));
        }
        let has_input = self.waiter.takes_input();
        if let Some(end) = self.end_of_command(rt, has_input) {
            return Some(ClientEvent::Ended(end));
        }
        if self.course.takes_time_up() {
            Some(ClientEvent::TimeIsUp)
        } else {
            None
        }
    }

    /// A held signal that has come, the first time that it is seen.
    fn new_signal<R: Files + AllocGlobal>(&mut self, rt: &R) -> Option<Signal>
        ensures work { self.new.work ≡ self.old.work }
        ensures new { IfSome result (λ signal. (self.old.holds_signals_back ≡ true)
            × (holds signal self.old.seen ≡ false)
            × (self.new.seen ≡ including signal self.old.seen)) }
        ensures stays { result ≡ None → Stays self.old self.new }
    {
        if !self.holds_signals_back {
            return None;
        }
        let signal = state_now(rt).pending.first_besides(self.seen)?;
        self.seen = self.seen.including(signal);
        Some(signal)
    }

    /// The event of a signal: it ends the wait for standard input; during any other work it is only
    /// reported.
    fn event_of_signal(&mut self, signal: Signal) -> ClientEvent
        ensures event { result ≡ signal_event self.old.work signal }
        ensures after { self.new.work ≡ after_signal self.old.work }
        ensures seen { self.new.seen ≡ self.old.seen }
        ensures starts_none { is_running self.new.work ≡ is_running self.old.work }
        ensures ended { (end : CommandEnd) → result ≡ Ended end → is_running self.new.work ≡ false }
    {
        match self.work {
            Work::Input => {
                self.work = Work::None;
                ClientEvent::Ended(CommandEnd::Killed(signal.number()))
            }
            _ => ClientEvent::Signal(signal),
        }
    }

    /// How the command ended, once it and all that the lock waits for have ended; then the guard
    /// may go.
    fn end_of_command<R: Files + Input + Eprint + AllocGlobal>(
        &mut self,
        rt: &R,
        has_input: bool,
    ) -> Option<CommandEnd>
        ensures starts_none { is_running self.new.work ≡ true → is_running self.old.work ≡ true }
        ensures ended { IfSome result (λ _. is_running self.new.work ≡ false) }
        ensures stays { result ≡ None → Stays self.old self.new }
    {
        if let Some(end) = self.work.ended(rt, has_input) {
            if !self.awaits_family {
                return Some(self.dismiss_guard(end));
            }
            self.work = Work::Family(end);
        }
        let end = self.work.family_ended(rt, self.mark.as_str())?;
        Some(self.dismiss_guard(end))
    }

    /// Says to the guard that the command has ended.
    fn dismiss_guard(&mut self, end: CommandEnd) -> CommandEnd
        ensures end { result ≡ end }
        ensures gone { self.new.guard ≡ None }
        ensures work { self.new.work ≡ self.old.work }
    {
        if let Some(guard) = &mut self.guard {
            guard.say("done\n");
        }
        self.guard = None;
        end
    }

    /// Does this deed after this event.
    fn do_deed<
        R: Env + Net + Files + Processes<Started = P> + Clock + Print + Eprint + AllocGlobal,
    >(&mut self, rt: &R, event: ClientEvent, deed: ClientDeed)
        ensures starts { deed ≢ Start → is_running self.new.work ≡ is_running self.old.work }
        ensures course { IsCourseAfter deed self.old.course self.new.course }
    {
        self.report_course(rt, event, deed);
        match deed {
            ClientDeed::Wait => {}
            ClientDeed::AskAgain => {
                thread::sleep(rt, Duration::from_millis(FULL_REST));
                self.write_line(ClientLine::Lock);
            }
            ClientDeed::ConnectAgain => self.connect_again(rt),
            ClientDeed::Start => self.start_work(rt),
            ClientDeed::PassOn => self.work.pass_on(rt),
            ClientDeed::GiveBack => {
                self.course.give_back();
                self.write_line(ClientLine::Unlock);
            }
            ClientDeed::EndCommand => self.end_command(rt, event),
            ClientDeed::SayLost => self.report_loss(rt, event, Fate::RunsOn),
            ClientDeed::Finish(outcome) => self.report_end(rt, event, outcome),
        }
    }

    /// Writes a line to the node.
    fn write_line(&mut self, line: ClientLine)
        ensures node { self.new.node ≡ self.old.node }
        ensures work { self.new.work ≡ self.old.work }
        ensures course { self.new.course ≡ self.old.course }
    {
        if let Some(desk) = &mut self.desk {
            self.has_failed = desk.write(line).is_err();
        }
    }

    /// Connects again, after a rest, and asks for the lock.
    fn connect_again<R: Net + Files + Clock + Eprint + AllocGlobal>(&mut self, rt: &R)
        ensures work { self.new.work ≡ self.old.work }
        ensures course { IsCourseAfter ConnectAgain self.old.course self.new.course }
    {
        thread::sleep(rt, Duration::from_millis(FULL_REST));
        match desk_of(rt, &self.request) {
            Ok(mut desk) => {
                self.has_failed = self.waiter.watch(desk.stream()).is_err()
                    || desk.write(ClientLine::Lock).is_err();
                self.node = desk.node();
                self.desk = Some(desk);
                // A guard that holds the earlier connection ends by itself.
                self.guard = None;
                let now = self.stopwatch.millis(rt);
                self.course.set_time(now);
                self.course.note_connected();
            }
            Err(notice) => {
                let _ = rt.eprintln(NoticeLine(why_unserved(notice)));
                self.is_unserved = true;
            }
        }
    }

    /// Starts the command and its guard, or prints that the lock is granted.
    fn start_work<R: Env + Net + Files + Processes<Started = P> + Print + Eprint + AllocGlobal>(
        &mut self,
        rt: &R,
    )
        ensures { self.new.course ≡ started self.old.course }
    {
        self.course.start();
        if self.request.command.is_empty() {
            return self.start_waiting(rt);
        }
        match self.have_guard(rt) {
            Ok(()) => self.start_command(rt),
            Err(_) => {
                let _ = rt.eprintln(NoticeLine(Notice::NoGuard));
                self.work = Work::Done(CommandEnd::NotGuarded);
            }
        }
    }

    /// Starts the guard while the client waits for the lock, if there is a command. If that fails,
    /// it is tried again when the lock is granted.
    pub fn prepare_guard<R: Net + Files + Processes + AllocGlobal>(&mut self, rt: &R)
        ensures { self.new.work ≡ self.old.work }
    {
        if !self.request.command.is_empty() {
            let _ = self.start_guard(rt);
        }
    }

    /// Announces the command to the guard, and starts a guard if there is none.
    fn have_guard<R: Net + Files + Processes + AllocGlobal>(&mut self, rt: &R) -> io::Result<()>
        ensures { self.new.course ≡ self.old.course }
    {
        if self.guard.is_none() {
            self.start_guard(rt)?;
        }
        if let Some(guard) = &mut self.guard {
            guard.say("start\n");
        }
        Ok(())
    }

    /// Starts the guard.
    fn start_guard<R: Net + Files + Processes + AllocGlobal>(&mut self, rt: &R) -> io::Result<()>
        ensures work { self.new.work ≡ self.old.work }
        ensures course { self.new.course ≡ self.old.course }
    {
        let Some(desk) = &mut self.desk else {
            return Err(io::Error::from(ErrorKind::NotConnected));
        };
        let connection = desk.stream().as_fd().try_clone_to_owned()?;
        let words = self.request.guard;
        let mut guard = GuardLink::start(rt, words, self.mark.as_str(), connection)?;
        self.waiter.watch_guard(guard.stream())?;
        self.guard = Some(guard);
        Ok(())
    }

    /// Starts the command, and names its process to the guard.
    fn start_command<R: Env + Processes<Started = P> + Eprint + AllocGlobal>(&mut self, rt: &R)
        ensures { self.new.course ≡ self.old.course }
    {
        let started = match with_marks_before(rt, self.mark.as_str()) {
            Ok(marks) => start(rt, rt.alloc(), self.request.command, marks.as_str()),
            Err(error) => Err(io::Error::from(error)),
        };
        self.work = match started {
            Ok(child) => {
                self.announce(rt, child.id());
                Work::Running(child)
            }
            Err(error) => Work::Done(self.report_no_start(rt, error.kind())),
        };
    }

    /// Names the command's process to the guard.
    fn announce<R: AllocGlobal>(&mut self, rt: &R, process: u32)
        ensures { self.new.course ≡ self.old.course }
    {
        if let Ok(line) = format!(in rt.alloc(); "runs {process}\n")
            && let Some(guard) = &mut self.guard
        {
            guard.say(line.as_str());
        }
    }

    /// Reports that the command could not be started for this reason.
    fn report_no_start<R: Eprint>(&self, rt: &R, kind: ErrorKind) -> CommandEnd {
        let name = self.request.command.first().copied().unwrap_or("");
        let end = spawn_end(kind);
        let _ = rt.eprintln(NoticeLine(match end {
            CommandEnd::NotThere => Notice::NoCommand(name),
            _ => Notice::CannotRun(name),
        }));
        end
    }

    /// Says that the lock is granted, and watches for the end of standard input from now on.
    fn start_waiting<R: Print + Eprint>(&mut self, rt: &R)
        ensures { self.new.course ≡ self.old.course }
    {
        self.work = match rt.println("granted") {
            Ok(()) => {
                self.waiter.watch_input();
                Work::Input
            }
            Err(error) => {
                let _ = eprintln!(rt; "tokentree: standard output: {error}");
                let _ = rt.eprintln(NoticeLine(Notice::Output));
                Work::Done(CommandEnd::Exited(1))
            }
        };
    }

    /// Asks the command to end, and sets the time to kill it.
    fn end_command<R: Files + Processes + Eprint + AllocGlobal>(
        &mut self,
        rt: &R,
        event: ClientEvent,
    )
        ensures work { is_running self.new.work ≡ is_running self.old.work }
        ensures course { self.new.course ≡ asked_to_end self.old.course }
    {
        self.report_loss(rt, event, Fate::Ended);
        self.awaits_family = true;
        self.course.ask_to_end();
        self.work.end(rt, self.mark.as_str());
    }

    /// Reports that the lock is lost, why, and what becomes of the command.
    fn report_loss<R: Eprint>(&self, rt: &R, event: ClientEvent, fate: Fate) {
        let has_command = !self.request.command.is_empty();
        let command = if has_command { fate } else { Fate::NoCommand };
        let _ = rt.eprintln(NoticeLine(loss_notice(self.node, event, command)));
    }

    /// Reports why it ended like this, if the command does not show it and it was not reported
    /// before.
    fn report_end<R: Eprint>(&self, rt: &R, event: ClientEvent, outcome: Outcome) {
        if let Some(notice) = end_notice(self.node, self.waited_in_vain(), event, outcome) {
            let _ = rt.eprintln(NoticeLine(notice));
        }
    }

    /// The line if the lock was not granted in time.
    fn waited_in_vain(&self) -> Notice<'a>
        ensures { result ≡ vain_notice (lacks_room self.now.course) self.now.node self.now.request.limit }
    {
        let node = self.node;
        match (self.course.lacks_room(), self.request.limit) {
            (true, _) => Notice::NoRoom(node),
            (false, Some(limit)) => Notice::NotInTime { node, limit },
            (false, None) => Notice::NotInTime {
                node,
                limit: Seconds { millis: 0 },
            },
        }
    }

    /// Reports that the lock is granted or released, if the request is verbose.
    fn report_course<R: Eprint>(&self, rt: &R, event: ClientEvent, deed: ClientDeed) {
        if self.request.is_verbose
            && let Some(notice) = course_notice(self.node, event, deed)
        {
            let _ = rt.eprintln(NoticeLine(notice));
        }
    }

    /// Waits for what happens next.
    fn wait_a_while(&mut self)
        ensures work { self.new.work ≡ self.old.work }
        ensures stays { Stays self.old self.new }
    {
        let age = self.course.age(self.work.is_running());
        let left = self.course.left(self.work.is_family());
        self.waiter.wait(rest(age, left, self.holds_signals_back));
    }
}

/// Returns a waiter for the lines of this desk.
fn waiter_for<'a, R: Net + AllocGlobal>(
    rt: &R,
    desk: &mut DeskConnection,
) -> Result<Waiter, Notice<'a>>
    ensures { IfErr result IsUnbegun }
{
    match Waiter::new(rt, rt.alloc(), desk.stream()) {
        Ok(waiter) => Ok(waiter),
        Err(error) => Err(why_no_wait(error.kind())),
    }
}

/// Why the system cannot wait, by its answer.
fn why_no_wait<'a>(kind: ErrorKind) -> Notice<'a>
    ensures { result ≡ no_wait_notice kind }
{
    match kind {
        ErrorKind::OutOfMemory => Notice::Memory,
        _ => Notice::System,
    }
}
