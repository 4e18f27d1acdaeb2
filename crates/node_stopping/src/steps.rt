//! What is done next with a node that should end.
ghost use Rattle.std.specs.Prelude.{◌≡◌};
ghost use Rattle.node_stopping.specs.Steps.{next};

use crate::lines::Ending;

/// What is seen of a node's lock file.
#[derive(Clone, Copy)]
pub enum LockSight {
    /// It is not there, or nobody holds it.
    Free,
    /// A process holds it.
    Held,
    /// The system does not let it be opened.
    Hidden,
}

/// What is done next.
#[derive(Clone, Copy)]
pub enum StopStep {
    /// Its stop file is made.
    Ask,
    /// It is looked at again after a while.
    Wait,
    /// The node is done with, and it went like this.
    Done(Ending),
}

/// What is done next with a node, by what is seen of it, whether its stop file was made, and whether the
/// time is over.
pub fn next(sight: LockSight, was_asked: bool, is_late: bool) -> StopStep
    ensures { result ≡ next sight was_asked is_late }
{
    match sight {
        LockSight::Hidden => StopStep::Done(Ending::Hidden),
        LockSight::Free if was_asked => StopStep::Done(Ending::Ended),
        LockSight::Free => StopStep::Done(Ending::NotRunning),
        LockSight::Held if !was_asked => StopStep::Ask,
        LockSight::Held if is_late => StopStep::Done(Ending::Late),
        LockSight::Held => StopStep::Wait,
    }
}
