//! Turns in which nobody needs the node.
ghost use Rattle.std.specs.Prelude.{◌≡◌};
ghost use Rattle.node_recorder.specs.Quiet.{is_quiet, is_silent};

use flight_recorder::Deed;

/// Whether a turn with these deeds was quiet: the node took no frame and sent none, and nobody asked for
/// the lock or left. A node in haste sends in each turn.
pub fn is_quiet(deeds: &[Deed]) -> bool
    ensures { result ≡ is_quiet deeds.now }
{
    deeds.iter().all(|deed| is_silent(deed))
}

/// Whether this deed is neither a frame that was taken or sent, nor a client that asked or left.
fn is_silent(deed: &Deed) -> bool
    ensures { result ≡ is_silent deed.now }
{
    match deed {
        Deed::Takes { .. }
        | Deed::TakesAgain { .. }
        | Deed::Sends { .. }
        | Deed::SendsAgain { .. }
        | Deed::Asks { .. }
        | Deed::Leaves { .. } => false,
        Deed::Ticks
        | Deed::Joins { .. }
        | Deed::Parts { .. }
        | Deed::Connects { .. }
        | Deed::Disconnects { .. } => true,
    }
}
