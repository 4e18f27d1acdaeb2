//! What `up` does with a node that it keeps running.
ghost use Rattle.std.specs.Prelude.{◌≡◌, true};
ghost use Rattle.node_keeping.specs.Steps.{stage_after, deed_at, failures_after, is_kept};
ghost use Rattle.node_keeping.specs.Steps.{looked_at, looked_deed, ended_after, ended_deed, is_failed};
ghost use Rattle.node_keeping.specs.Steps.{asked_after, asked_deed, urged_deed};

use node_texts::End;

/// The number of looks after which a node that ended is started again.
pub const LOOKS_BEFORE_START: u32 = 10;

/// The number of looks after which a node that must end is killed.
pub const LOOKS_BEFORE_KILL: u32 = 500;

/// A node that ends with a fault before it was looked at this often has failed at its start.
const LOOKS_OF_A_START: u32 = 100;

/// A node that fails at its start this often in a row is left alone.
const MOST_FAILURES: u8 = 3;

/// The stage of a node that is kept running.
#[derive(Clone, Copy, PartialEq, Eq)]
pub enum KeeperStage {
    /// It is started after this many more looks.
    Waits(u32),
    /// It is being started.
    Starts,
    /// It runs, and was looked at this often since its start.
    Runs(u32),
    /// It must end, and is killed after this many more looks.
    Closes(u32),
    /// It failed at its start again and again, and is left alone.
    Left,
    /// It is not started again, since `up` must end.
    Over,
}

/// What is seen of a node.
#[derive(Clone, Copy)]
pub enum Seen {
    /// A look shows nothing new.
    Nothing,
    /// It was started.
    Started,
    /// It ended like this, or could not be started.
    Ended(End),
    /// `up` is asked to end.
    Asked,
    /// `up` is asked again, and no longer waits for its nodes.
    Urged,
}

/// What to do with a node.
#[derive(Clone, Copy)]
pub enum KeeperDeed {
    /// Do nothing.
    Rest,
    /// Start it.
    Start,
    /// Say that it ended like this, and is started again.
    SayAgain(End),
    /// Say that it ended like this, and is left alone.
    SayLeft(End),
    /// Close its input, so that it ends.
    CloseInput,
    /// Say that it ended like this, as asked.
    SayGone(End),
    /// Kill it.
    Kill,
}

/// What `up` knows of a node that it keeps running.
#[derive(Clone, Copy, Drop)]
pub struct Keeper {
    stage: KeeperStage,
    /// How often in a row it failed at its start.
    failures: u8,
}

impl Keeper {
    ghost use Rattle.std.specs.Prelude.{nat_lt, if◌then◌else◌};
    ghost use Rattle.node_keeping.specs.Steps.{new_keeper};
    ghost use Rattle.node_keeping.specs.declared.keeper.KeeperStage.TheVariants.{Waits, Left, Over};
    ghost use Rattle.node_keeping.specs.declared.keeper.Seen.TheVariants.{Started, Ended};
    ghost use Rattle.node_keeping.specs.declared.keeper.KeeperDeed.TheVariants.{Rest, SayAgain, SayLeft};

    /// A node that is started at the first look.
    pub fn new() -> Keeper
        ensures { result ≡ new_keeper }
    {
        Keeper {
            stage: KeeperStage::Waits(0),
            failures: 0,
        }
    }

    /// Whether there is more to do for this node.
    pub fn is_kept(&self) -> bool
        ensures { result ≡ is_kept self.now.stage }
    {
        !matches!(self.stage, KeeperStage::Left | KeeperStage::Over)
    }

    /// Takes note of what was seen, and returns what to do. A start or an end that cannot be seen
    /// at that stage changes nothing.
    pub fn step(&mut self, seen: Seen) -> KeeperDeed
        ensures stage { self.new.stage ≡ stage_after seen self.old.failures self.old.stage }
        ensures failures { self.new.failures ≡ failures_after seen self.old.stage self.old.failures }
        ensures deed { result ≡ deed_at seen self.old.failures self.old.stage }
    {
        match seen {
            Seen::Nothing => self.look(),
            Seen::Started => self.begin(),
            Seen::Ended(end) => self.end(end),
            Seen::Asked => self.close(),
            Seen::Urged => self.cut_short(),
        }
    }

    /// A look shows nothing new.
    fn look(&mut self) -> KeeperDeed
        ensures stage { self.new ≡ record self.old { stage = looked_at self.old.stage } }
        ensures deed { result ≡ looked_deed self.old.stage }
    {
        let (stage, deed) = match self.stage {
            KeeperStage::Waits(0) => (KeeperStage::Starts, KeeperDeed::Start),
            KeeperStage::Waits(looks) => (KeeperStage::Waits(looks - 1), KeeperDeed::Rest),
            KeeperStage::Runs(looks) => (
                KeeperStage::Runs(looks.saturating_add(1)),
                KeeperDeed::Rest,
            ),
            KeeperStage::Closes(0) => (KeeperStage::Over, KeeperDeed::Kill),
            KeeperStage::Closes(looks) => (KeeperStage::Closes(looks - 1), KeeperDeed::Rest),
            stage => (stage, KeeperDeed::Rest),
        };
        self.stage = stage;
        deed
    }

    /// It was started.
    fn begin(&mut self) -> KeeperDeed
        ensures stage { self.new.stage ≡ stage_after Started self.old.failures self.old.stage }
        ensures failures { self.new.failures ≡ self.old.failures }
        ensures deed { result ≡ Rest }
    {
        if self.stage == KeeperStage::Starts {
            self.stage = KeeperStage::Runs(0);
        }
        KeeperDeed::Rest
    }

    /// It ended like this, or could not be started.
    fn end(&mut self, end: End) -> KeeperDeed
        ensures stage { self.new.stage ≡ ended_after end self.old.failures self.old.stage }
        ensures failures { self.new.failures
            ≡ failures_after (Ended end) self.old.stage self.old.failures }
        ensures deed { result ≡ ended_deed end self.old.failures self.old.stage }
    {
        match self.stage {
            KeeperStage::Starts => self.wait(end),
            KeeperStage::Runs(looks) if !is_failed(end, looks) => {
                self.failures = 0;
                self.wait(end)
            }
            KeeperStage::Runs(_) => {
                self.failures = self.failures.saturating_add(1);
                self.fail(end)
            }
            KeeperStage::Closes(_) => {
                self.stage = KeeperStage::Over;
                KeeperDeed::SayGone(end)
            }
            _ => KeeperDeed::Rest,
        }
    }

    /// It is started again after a while.
    fn wait(&mut self, end: End) -> KeeperDeed
        ensures stage { self.new ≡ record self.old { stage = Waits 10 } }
        ensures deed { result ≡ SayAgain end }
    {
        self.stage = KeeperStage::Waits(LOOKS_BEFORE_START);
        KeeperDeed::SayAgain(end)
    }

    /// It is started again after a while, unless it failed too often.
    fn fail(&mut self, end: End) -> KeeperDeed
        ensures stage { self.new ≡ record self.old {
          stage = if nat_lt self.old.failures 3 then Waits 10 else Left;
        } }
        ensures deed { result ≡ (if nat_lt self.old.failures 3 then SayAgain end else SayLeft end) }
    {
        if self.failures < MOST_FAILURES {
            return self.wait(end);
        }
        self.stage = KeeperStage::Left;
        KeeperDeed::SayLeft(end)
    }

    /// It is no longer started.
    fn close(&mut self) -> KeeperDeed
        ensures stage { self.new ≡ record self.old { stage = asked_after self.old.stage } }
        ensures deed { result ≡ asked_deed self.old.stage }
    {
        match self.stage {
            KeeperStage::Starts | KeeperStage::Runs(_) => {
                self.stage = KeeperStage::Closes(LOOKS_BEFORE_KILL);
                KeeperDeed::CloseInput
            }
            KeeperStage::Waits(_) | KeeperStage::Left => {
                self.stage = KeeperStage::Over;
                KeeperDeed::Rest
            }
            KeeperStage::Closes(_) | KeeperStage::Over => KeeperDeed::Rest,
        }
    }

    /// It is no longer waited for.
    fn cut_short(&mut self) -> KeeperDeed
        ensures stage { self.new ≡ record self.old { stage = Over } }
        ensures deed { result ≡ urged_deed self.old.stage }
    {
        let is_there = matches!(
            self.stage,
            KeeperStage::Starts | KeeperStage::Runs(_) | KeeperStage::Closes(_)
        );
        self.stage = KeeperStage::Over;
        if is_there {
            KeeperDeed::Kill
        } else {
            KeeperDeed::Rest
        }
    }
}

/// Whether a node that ended like this, and was looked at this often, failed at its start.
fn is_failed(end: End, looks: u32) -> bool
    ensures { result ≡ is_failed end looks }
{
    match end {
        End::Status(status) => status != 0 && looks < LOOKS_OF_A_START,
        _ => false,
    }
}
