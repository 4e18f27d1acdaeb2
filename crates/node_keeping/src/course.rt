//! When `up` ends its nodes.
ghost use Rattle.std.specs.Prelude.{◌≡◌};
ghost use Rattle.node_keeping.specs.Course.{is_asked, is_urged, stage_then, seen_then, word_then};

use crate::keeper::Seen;
use held_signals::Signals;

/// How far `up` has come.
#[derive(Clone, Copy)]
pub enum UpStage {
    /// It keeps its nodes running.
    Running,
    /// Its nodes must end.
    Ending,
    /// Its nodes are killed.
    Killing,
}

/// What `up` sees of itself between two looks at its nodes.
#[derive(Clone, Copy)]
pub struct UpSights {
    /// The signals that have come to it since its start.
    pub signals: Signals,
    /// Whether its standard input, if that has an end, has ended.
    pub has_input_ended: bool,
    /// Whether a signal ended the process that runs beside it once it was asked to end: then Ctrl-C
    /// came again.
    pub is_pressed: bool,
}

/// Whether `up` keeps its nodes running.
#[derive(Clone, Copy, Drop)]
pub struct UpCourse {
    stage: UpStage,
    /// The signals that had come when it was asked to end.
    seen: Signals,
}

impl UpCourse {
    ghost use Rattle.std.specs.Prelude.{true, false};
    ghost use Rattle.node_keeping.specs.Course.{new_course, is_ending};

    /// Nothing has asked it to end.
    pub fn new() -> UpCourse
        ensures { result ≡ new_course }
    {
        UpCourse {
            stage: UpStage::Running,
            seen: Signals::none(),
        }
    }

    /// Whether its nodes must end.
    pub fn is_ending(&self) -> bool
        ensures { result ≡ is_ending self.now.stage }
    {
        self.stage != UpStage::Running
    }

    /// Takes note of what was seen, and returns what each node's keeper then takes note of, if
    /// anything.
    pub fn step(&mut self, sights: UpSights) -> Option<Seen>
        ensures stage { self.new.stage ≡ stage_then sights self.old.seen self.old.stage }
        ensures seen { self.new.seen ≡ seen_then sights self.old.seen self.old.stage }
        ensures word { result ≡ word_then sights self.old.seen self.old.stage }
    {
        match self.stage {
            UpStage::Running if is_asked(sights) => {
                self.stage = UpStage::Ending;
                self.seen = sights.signals;
                Some(Seen::Asked)
            }
            UpStage::Ending if is_urged(sights, self.seen) => {
                self.stage = UpStage::Killing;
                Some(Seen::Urged)
            }
            _ => None,
        }
    }
}

/// Whether anything asks `up` to end.
fn is_asked(sights: UpSights) -> bool
    ensures { result ≡ is_asked sights }
{
    sights.has_input_ended || sights.signals.any()
}

/// Whether anything asks `up` to end again; these signals had come to it before.
fn is_urged(sights: UpSights, seen: Signals) -> bool
    ensures { result ≡ is_urged sights seen }
{
    sights.is_pressed || sights.signals.without(seen).any()
}
