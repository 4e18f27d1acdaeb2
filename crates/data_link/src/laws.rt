//! The laws of a port and of one edge, each the contract of a function that does nothing. A proof
//! that needs one calls it and cites its clauses. They hold for every capacity, and whatever
//! payloads are handed in as present. Those of an edge are about one direction; the other direction
//! is that of the same edge seen from its other end.
ghost use Rattle.data_link.specs.Refreshing.{SweepCopiesStaged};
ghost use Rattle.data_link.specs.Laws.{CopyIsStaged, EventIsStep, MoveRefreshesStaged};
ghost use Rattle.data_link.specs.Laws.{PayloadsKeep, RangeStays};
ghost use Rattle.data_link.specs.Laws.{StableAfterMoves, StableAfterSweeps, StableOutlastsRuns};
ghost use Rattle.data_link.specs.Laws.{StableStays, StagedIsPresent, StrictSweepIsSweep};
ghost use Rattle.data_link.specs.Laws.{SweepRefreshesCopy, SweepsMove, TakenIsCopied};
ghost use Rattle.data_link.specs.Laws.{ThreeSweepsRefresh, TwoSweepsMove};
ghost use Rattle.data_link.specs.PortLaws.{PortStaysInRange};
ghost use Rattle.data_link.specs.SixSweeps.{StableAfterSixSweeps};

use k_state::laws as k_state_laws;
pub use link_model::topology::laws::neighbours;

/// A port in range stays in range, whatever frame in range it takes, with whatever payload in range
/// as present. The crates that keep ports need this.
pub fn ports()
    ensures { PortStaysInRange }
{}

/// One event: a step of the link ring, and an edge in range stays in range.
pub fn events()
    ensures ring { EventIsStep }
    ensures range { RangeStays }
{}

/// A stable link stays stable, event by event.
pub fn stays_stable()
    ensures stays { StableStays }
    ensures stays_in_runs { StableOutlastsRuns }
{
    k_state_laws::stays_good();
    k_state_laws::fresh_value();
}

/// Sweeps move numbers: a strict sweep is a sweep, and two sweeps in a row contain a move.
pub fn sweeps()
    ensures strict { StrictSweepIsSweep }
    ensures two_move { TwoSweepsMove }
    ensures moves { SweepsMove }
{}

/// A link becomes stable: after `2C + 2` moves of the sender's number, so after `4(C + 1)` sweeps.
pub fn turns_stable()
    ensures after_moves { StableAfterMoves }
    ensures after_sweeps { StableAfterSweeps }
{
    k_state_laws::stays_good();
    k_state_laws::fresh_value();
}

/// A link is stable after six sweeps, whatever its capacity. The proof that all links of a world
/// are stable after as many sweeps needs this.
pub fn six_sweeps()
    ensures { StableAfterSixSweeps }
{
    k_state_laws::ages();
    k_state_laws::stays_good();
    k_state_laws::fresh_value();
}

/// Payloads on a stable link: what is staged was present, what is copied was staged, and three
/// sweeps replace both. The clauses are about tests that every payload handed in passes: as the
/// test, a world takes what holds of a node throughout.
pub fn payloads()
    ensures staged { StagedIsPresent }
    ensures copy { CopyIsStaged }
    ensures taken { TakenIsCopied }
    ensures keep { PayloadsKeep }
    ensures move_refreshes { MoveRefreshesStaged }
    ensures sweep_copies { SweepCopiesStaged }
    ensures sweep_refreshes { SweepRefreshesCopy }
    ensures three_sweeps { ThreeSweepsRefresh }
{
    k_state_laws::stays_good();
    k_state_laws::fresh_value();
}
