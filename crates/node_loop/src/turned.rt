//! What a turn returns.
ghost use Rattle.std.specs.Prelude.{◌≡◌, is_some};
ghost use Rattle.node_service.specs.Answers.{grants};

use lock_desk::DeskAct;
use node_core::Ticked;
use state_writing::StoreFault;

/// What a turn did, as far as its caller may need it.
#[derive(Clone, Copy)]
pub struct Turned {
    /// What the tick did.
    pub ticked: Ticked,
    /// What the store answered: an answer in each 256th turn, and none in any other.
    pub saved: Option<Result<(), StoreFault>>,
}

impl Turned {
    /// Whether a loan began in the turn.
    pub fn has_granted(&self) -> bool
        ensures { result ≡ grants self.now.ticked.act }
    {
        matches!(self.ticked.act, DeskAct::Granted(_))
    }

    /// Whether to look at the node's files after the turn, and to read the network's again: after
    /// each turn that saved, whatever the store answered.
    pub fn is_to_look(&self) -> bool
        ensures { result ≡ is_some self.now.saved }
    {
        self.saved.is_some()
    }
}
