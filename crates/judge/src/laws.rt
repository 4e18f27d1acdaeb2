//! What this crate knows about the crates below.
ghost use Rattle.judge.specs.Below.{Below};

use configuration::laws as configuration_laws;
pub use configuration::laws::{in_range, moments, runs, sweep_numbers};
use topology::laws as topology_laws;

/// The laws of networks and of runs that the judge uses.
pub(crate) fn below()
    ensures { Below }
{
    topology_laws::joined();
    topology_laws::limits();
    configuration_laws::runs();
    configuration_laws::in_range();
    configuration_laws::stretches();
    configuration_laws::sweep_counts();
    configuration_laws::moments();
}
