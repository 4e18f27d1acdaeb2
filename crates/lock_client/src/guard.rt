//! What the guard of a command does next.
ghost use Rattle.std.specs.Prelude.{◌≡◌};
ghost use Rattle.lock_client.specs.Guards.{guard_after, guard_deed, idle_after, watching_after};
ghost use Rattle.lock_client.specs.Guards.{searching_after, asked_after, killed_after};
ghost use Rattle.lock_client.specs.Guards.{waiting_after, quiet_after, look_rest};

use crate::GuardWord;

/// How many looks in a row must find no process of a command before it counts as gone. A command
/// that is just being started cannot be found by its mark until it runs.
pub const QUIET_LOOKS: u8 = 4;

/// How far a guard is.
#[derive(Clone, Copy)]
pub enum GuardStage {
    /// No command was announced.
    Idle,
    /// A command is about to be started, or runs, and its client lives.
    Watching,
    /// The client is gone. This many looks in a row have found no process of the command.
    Searching(u8),
    /// The command was asked to end. This many looks in a row have found no process of it.
    Asked(u8),
    /// The command was killed. This many looks in a row have found no process of it.
    Killed(u8),
    /// The command is left to end by itself. This many looks in a row have found no process of it.
    Waiting(u8),
    /// The lock is given back.
    Over,
}

/// What a look has found.
#[derive(Clone, Copy)]
pub struct GuardSight {
    /// Whether a process of the command is left.
    pub somebody: bool,
    /// Whether a signal came to the guard. It is taken to have come to the whole group, so that the
    /// command has had it too.
    pub signalled: bool,
}

/// What happens to a guard.
#[derive(Clone, Copy)]
pub enum GuardEvent {
    /// The client said this.
    Said(GuardWord),
    /// The client is gone: it ended, or was killed.
    Closed,
    /// A look for the command found this.
    Looked(GuardSight),
    /// The command was asked to end, and its time to do so is up.
    GraceIsOver,
}

/// What a guard does now.
#[derive(Clone, Copy)]
pub enum GuardDeed {
    /// Wait for what the client says next.
    Listen,
    /// Look for the command, after a rest.
    Look,
    /// Ask all processes of the command to end, and look after a rest.
    Ask,
    /// Kill all processes of the command, and look after a rest.
    Kill,
    /// Release the lock, by ending.
    End,
}

/// The guard of a command that runs under the lock. It holds the lock together with the client; if
/// the client is killed, it holds it as long as its looks find a process of the command.
#[derive(Clone, Copy)]
pub struct Guard {
    keeps_running: bool,
    stage: GuardStage,
}

impl Guard {
    ghost use Rattle.lock_client.specs.declared.guard.GuardStage.TheVariants.{Idle};

    /// A guard to which the client has said nothing. `keeps_running` says whether the command runs
    /// on if the client is gone.
    pub fn new(keeps_running: bool) -> Guard
        ensures keeps { result.keeps_running ≡ keeps_running }
        ensures idle { result.stage ≡ Idle }
    {
        Guard {
            keeps_running,
            stage: GuardStage::Idle,
        }
    }

    /// How many milliseconds it rests before its next look: 200 if the command is left to end by
    /// itself and the last look found a process of it, else 50.
    pub fn rest(&self) -> u64
        ensures { result ≡ look_rest self.now.stage }
    {
        match self.stage {
            GuardStage::Waiting(0) => 200,
            _ => 50,
        }
    }

    /// Takes note of what happened, and says what to do. What cannot happen at that stage changes
    /// nothing.
    pub fn step(&mut self, event: GuardEvent) -> GuardDeed
        ensures stage { self.new ≡ record self.old {
          stage = guard_after self.old.keeps_running event self.old.stage;
        } }
        ensures deed { result ≡ guard_deed self.old.stage self.new.stage }
    {
        let before = self.stage;
        self.stage = match before {
            GuardStage::Idle => idle_after(event),
            GuardStage::Watching => watching_after(event),
            GuardStage::Searching(quiet) => self.searching_after(event, quiet),
            GuardStage::Asked(quiet) => asked_after(event, quiet),
            GuardStage::Killed(quiet) => killed_after(event, quiet),
            GuardStage::Waiting(quiet) => waiting_after(event, quiet),
            GuardStage::Over => before,
        };
        deed(before, self.stage)
    }

    /// The stage after an event while the guard has not yet found the command.
    fn searching_after(&self, event: GuardEvent, quiet: u8) -> GuardStage
        ensures { result ≡ searching_after self.now.keeps_running event quiet }
    {
        match event {
            GuardEvent::Looked(sight) if self.keeps_running || sight.signalled => {
                waiting_after(event, quiet)
            }
            GuardEvent::Looked(sight) if sight.somebody => GuardStage::Asked(0),
            _ => quiet_after(event, quiet).map_or(GuardStage::Over, GuardStage::Searching),
        }
    }
}

/// The stage after an event while the client has announced no command.
fn idle_after(event: GuardEvent) -> GuardStage
    ensures { result ≡ idle_after event }
{
    match event {
        GuardEvent::Said(GuardWord::Start) => GuardStage::Watching,
        GuardEvent::Said(GuardWord::Done) | GuardEvent::Closed => GuardStage::Over,
        _ => GuardStage::Idle,
    }
}

/// The stage after an event while the client itself looks after the command.
fn watching_after(event: GuardEvent) -> GuardStage
    ensures { result ≡ watching_after event }
{
    match event {
        GuardEvent::Said(GuardWord::Done) => GuardStage::Over,
        GuardEvent::Closed => GuardStage::Searching(0),
        _ => GuardStage::Watching,
    }
}

/// The stage after an event once the command was asked to end.
fn asked_after(event: GuardEvent, quiet: u8) -> GuardStage
    ensures { result ≡ asked_after event quiet }
{
    match event {
        GuardEvent::GraceIsOver => GuardStage::Killed(0),
        _ => quiet_after(event, quiet).map_or(GuardStage::Over, GuardStage::Asked),
    }
}

/// The stage after an event once the command was killed.
fn killed_after(event: GuardEvent, quiet: u8) -> GuardStage
    ensures { result ≡ killed_after event quiet }
{
    quiet_after(event, quiet).map_or(GuardStage::Over, GuardStage::Killed)
}

/// The stage after an event while the command is left to end by itself.
fn waiting_after(event: GuardEvent, quiet: u8) -> GuardStage
    ensures { result ≡ waiting_after event quiet }
{
    quiet_after(event, quiet).map_or(GuardStage::Over, GuardStage::Waiting)
}

/// How many looks in a row have found no process of the command after this event, if `quiet` had
/// before it; none if these are enough.
fn quiet_after(event: GuardEvent, quiet: u8) -> Option<u8>
    ensures { result ≡ quiet_after event quiet }
{
    match event {
        GuardEvent::Looked(sight) if sight.somebody => Some(0),
        GuardEvent::Looked(_) if quiet >= QUIET_LOOKS - 1 => None,
        GuardEvent::Looked(_) => Some(quiet + 1),
        _ => Some(quiet),
    }
}

/// What to do at this stage, by the one before it.
fn deed(before: GuardStage, now: GuardStage) -> GuardDeed
    ensures { result ≡ guard_deed before now }
{
    match now {
        GuardStage::Over => GuardDeed::End,
        GuardStage::Idle | GuardStage::Watching => GuardDeed::Listen,
        GuardStage::Asked(_) if matches!(before, GuardStage::Searching(_)) => GuardDeed::Ask,
        GuardStage::Killed(0) => GuardDeed::Kill,
        _ => GuardDeed::Look,
    }
}
