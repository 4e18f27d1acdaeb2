//! What a client of the lock does next.
ghost use Rattle.std.specs.Prelude.{◌≡◌};
ghost use Rattle.lock_client.specs.Steps.{stage_after, asking_after, holding_after, losing_after};
ghost use Rattle.lock_client.specs.Steps.{returning_after, in_doubt};
ghost use Rattle.lock_client.specs.Steps.{deed_between, asking_deed, running_deed, losing_deed};
ghost use Rattle.lock_client.specs.Steps.{lost_deed};

use crate::{Answer, CommandEnd, Outcome};
use held_signals::Signal;

/// How far a client is.
#[derive(Clone, Copy, PartialEq, Eq)]
pub enum ClientStage {
    /// It has asked for the lock, and has no answer yet.
    Asking,
    /// The lock is lent to it, and its command runs.
    Holding,
    /// The lock is lost or in doubt, and its command still runs.
    Losing,
    /// Its command ended like this, and it released the lock; the node has not confirmed that yet.
    Returning(CommandEnd),
    /// All is over.
    Over(Outcome),
}

/// What happens to a client.
#[derive(Clone, Copy)]
pub enum ClientEvent {
    /// The desk answered with this line.
    Line(Answer),
    /// The connection closed or failed.
    Gone,
    /// There is no connection, and no new one can be made.
    Unserved,
    /// The client has waited as long as it may for an answer.
    TimeIsUp,
    /// The command ended, or could not be started.
    Ended(CommandEnd),
    /// The guard of the command is gone. It would hold the lock if this client were killed.
    GuardGone,
    /// This signal came to the client, which holds it back.
    Signal(Signal),
}

/// What to do now.
#[derive(Clone, Copy)]
pub enum ClientDeed {
    /// Nothing: wait for what happens next.
    Wait,
    /// Write `lock` again, after a rest: there was no room at the desk.
    AskAgain,
    /// Connect again, after a rest, and write `lock`: the node closed the connection, as a node
    /// without room for a client does.
    ConnectAgain,
    /// Start the guard and the command.
    Start,
    /// Pass SIGTERM on to the command.
    PassOn,
    /// Write `unlock`.
    GiveBack,
    /// Say that the lock is lost, and end the command.
    EndCommand,
    /// Say that the lock is lost, and let the command run on.
    SayLost,
    /// Close the connection, and end like this.
    Finish(Outcome),
}

/// A client that takes the lock once, runs a command under it, and releases it. The caller that
/// makes one writes `lock` first.
#[derive(Clone, Copy)]
pub struct LockClient {
    keeps_running: bool,
    stage: ClientStage,
}

impl LockClient {
    ghost use Rattle.lock_client.specs.declared.client.ClientStage.TheVariants.{Asking};

    /// A client that has just asked. `keeps_running` says whether the command runs on if the lock
    /// is lost.
    pub fn new(keeps_running: bool) -> LockClient
        ensures keeps { result.keeps_running ≡ keeps_running }
        ensures asks { result.stage ≡ Asking }
    {
        LockClient {
            keeps_running,
            stage: ClientStage::Asking,
        }
    }

    /// How far it is.
    pub fn stage(&self) -> ClientStage
        ensures { result ≡ self.now.stage }
    {
        self.stage
    }

    /// Takes note of what happened, and says what to do. Once all is over, nothing changes that,
    /// and each call returns the same `Finish` again.
    pub fn step(&mut self, event: ClientEvent) -> ClientDeed
        ensures stage { self.new ≡ record self.old {
          stage = stage_after self.old.keeps_running event self.old.stage;
        } }
        ensures deed { result
            ≡ deed_between self.old.keeps_running event self.old.stage self.new.stage }
    {
        let before = self.stage;
        self.stage = match before {
            ClientStage::Asking => while_asking(event),
            ClientStage::Holding => while_holding(event),
            ClientStage::Losing => self.while_losing(event),
            ClientStage::Returning(end) => self.while_returning(event, end),
            ClientStage::Over(_) => before,
        };
        self.deed(event, before)
    }

    /// The stage after an event while the command runs without the lock.
    fn while_losing(&self, event: ClientEvent) -> ClientStage
        ensures { result ≡ losing_after self.now.keeps_running event }
    {
        match event {
            ClientEvent::Ended(end) => ClientStage::Over(self.in_doubt(end)),
            _ => ClientStage::Losing,
        }
    }

    /// The stage after an event once the command has ended and the client waits for the node's
    /// word.
    fn while_returning(&self, event: ClientEvent, end: CommandEnd) -> ClientStage
        ensures { result ≡ returning_after self.now.keeps_running event end }
    {
        match event {
            ClientEvent::Line(Answer::Released) => ClientStage::Over(Outcome::Done(end)),
            ClientEvent::Ended(_) | ClientEvent::GuardGone | ClientEvent::Signal(_) =>
                ClientStage::Returning(end),
            _ => ClientStage::Over(self.in_doubt(end)),
        }
    }

    /// How the client ends if the command ended like this and the lock may have been lost before it
    /// was released.
    fn in_doubt(&self, end: CommandEnd) -> Outcome
        ensures { result ≡ in_doubt self.now.keeps_running end }
    {
        if self.keeps_running {
            Outcome::Done(end)
        } else {
            Outcome::Lost
        }
    }

    /// What to do at the stage that is reached, by the event and the stage before it.
    fn deed(&self, event: ClientEvent, before: ClientStage) -> ClientDeed
        ensures { result ≡ deed_between self.now.keeps_running event before self.now.stage }
    {
        match self.stage {
            ClientStage::Over(outcome) => ClientDeed::Finish(outcome),
            ClientStage::Asking => asking_deed(event),
            ClientStage::Holding if before == ClientStage::Asking => ClientDeed::Start,
            ClientStage::Holding => running_deed(event),
            ClientStage::Returning(_) if before == ClientStage::Holding => ClientDeed::GiveBack,
            ClientStage::Losing if before == ClientStage::Holding => self.losing_deed(),
            ClientStage::Losing => self.lost_deed(event),
            ClientStage::Returning(_) => ClientDeed::Wait,
        }
    }

    /// What to do while the command runs without the lock.
    fn lost_deed(&self, event: ClientEvent) -> ClientDeed
        ensures { result ≡ lost_deed self.now.keeps_running event }
    {
        if self.keeps_running {
            running_deed(event)
        } else {
            ClientDeed::Wait
        }
    }

    /// What to do if the lock is lost while the command runs.
    fn losing_deed(&self) -> ClientDeed
        ensures { result ≡ losing_deed self.now.keeps_running }
    {
        if self.keeps_running {
            ClientDeed::SayLost
        } else {
            ClientDeed::EndCommand
        }
    }
}

/// What to do while the client waits for the lock.
fn asking_deed(event: ClientEvent) -> ClientDeed
    ensures { result ≡ asking_deed event }
{
    match event {
        ClientEvent::Line(Answer::Full) => ClientDeed::AskAgain,
        ClientEvent::Gone => ClientDeed::ConnectAgain,
        _ => ClientDeed::Wait,
    }
}

/// What to do while the command runs. A terminal's signals came to the command too, so only
/// SIGTERM is passed on.
fn running_deed(event: ClientEvent) -> ClientDeed
    ensures { result ≡ running_deed event }
{
    match event {
        ClientEvent::Signal(Signal::Terminate) => ClientDeed::PassOn,
        _ => ClientDeed::Wait,
    }
}

/// The stage after an event while the client waits for the lock.
fn while_asking(event: ClientEvent) -> ClientStage
    ensures { result ≡ asking_after event }
{
    match event {
        ClientEvent::Line(Answer::Granted) => ClientStage::Holding,
        ClientEvent::Line(Answer::Full) => ClientStage::Asking,
        ClientEvent::Line(_) | ClientEvent::Unserved => ClientStage::Over(Outcome::NoService),
        ClientEvent::TimeIsUp => ClientStage::Over(Outcome::NotInTime),
        ClientEvent::Signal(signal) => ClientStage::Over(Outcome::Stopped(signal)),
        ClientEvent::Gone | ClientEvent::Ended(_) | ClientEvent::GuardGone => ClientStage::Asking,
    }
}

/// The stage after an event while the client has the lock. Whatever the node says now, the lock is
/// lost or in doubt. A command without its guard would keep running without the lock if this client
/// were killed.
fn while_holding(event: ClientEvent) -> ClientStage
    ensures { result ≡ holding_after event }
{
    match event {
        ClientEvent::Line(_) | ClientEvent::Gone | ClientEvent::Unserved | ClientEvent::GuardGone =>
            ClientStage::Losing,
        ClientEvent::TimeIsUp | ClientEvent::Signal(_) => ClientStage::Holding,
        ClientEvent::Ended(end) => ClientStage::Returning(end),
    }
}
