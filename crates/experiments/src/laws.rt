//! What holds of whole schedules: each law is the contract of a function that does nothing.
ghost use Rattle.experiments.specs.Laws.{PlansAreAccepted};

use run_model::laws as run_model_laws;
use schedules::laws as schedules_laws;
pub use schedules::laws::taking;

/// No event of a schedule is refused if it begins in the default world: code that lets the events
/// happen, for example from their text, need not check for refusals.
pub fn accepted()
    ensures { PlansAreAccepted }
{
    run_model_laws::runs();
    run_model_laws::start();
    schedules_laws::scramble();
    schedules_laws::draws();
    schedules_laws::accepted();
    schedules_laws::edges();
}
