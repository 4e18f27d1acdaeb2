//! What holds for the token ring and for privilege: each law is the contract of a function that
//! does nothing.
ghost use Rattle.convergence.specs.RingBelow.{Below};
ghost use Rattle.convergence.specs.RingLaws.{OnePrivileged, OneLending, PrivilegeStays, SettledStays};
ghost use Rattle.convergence.specs.RingLaws.{EventIsRingRun};
ghost use Rattle.convergence.specs.RingLaws.{MovesTurnRingGood, HeadMoves, TokenRingStaysGood};
ghost use Rattle.convergence.specs.RingLaws.{TokenRingTurnsGood};
ghost use Rattle.convergence.specs.RingLaws.{TokenRingTurnsGoodSoon};
ghost use Rattle.convergence.specs.RingService.{PrivilegeGoesRound, PrivilegeVisits, MachinesMove};
ghost use Rattle.convergence.specs.Legs.{EachTour};

use k_state::laws as k_state_laws;
use run_model::laws as run_model_laws;
use topology::laws as topology_laws;
use tree_convergence::laws as tree_convergence_laws;

/// The legs of the tour: each goes on from the one before, and the first from the last; each node
/// has one for each of its tree neighbours; only the first is the special machine's; and there are
/// 2(n-1). Proofs that follow a value round the token ring need these.
pub fn legs()
    ensures { EachTour }
{
    topology_laws::joined();
    run_model_laws::round_a_node();
    run_model_laws::true_view();
    run_model_laws::the_tour();
}

/// Everything that this crate knows about the layers below, and about the tour. The laws below are
/// proved only from these.
pub fn below()
    ensures { Below }
{
    topology_laws::joined();
    topology_laws::neighbours();
    topology_laws::tree();
    k_state_laws::stays_good();
    k_state_laws::turns_good();
    k_state_laws::parallel_copies();
    k_state_laws::privilege();
    k_state_laws::ages();
    run_model_laws::true_view();
    run_model_laws::runs();
    run_model_laws::in_range();
    run_model_laws::sweep_numbers();
    run_model_laws::ticks();
    tree_convergence_laws::links();
    tree_convergence_laws::payloads();
    tree_convergence_laws::tree();
    legs();
}

/// One token, in a world in range: if the tree is reached and the token ring is good, at most one
/// node is privileged, and in a legitimate world at most one lends. This is the purpose of the
/// lock. On a settled world with a good ring, over events without damage, a privileged node stays
/// privileged until one of its machines moves.
pub fn one_token()
    ensures privileged { OnePrivileged }
    ensures lending { OneLending }
    ensures stays { PrivilegeStays }
{
    below();
}

/// A settled world stays settled: in range, its links stable, its tree reached.
pub fn settled()
    ensures { SettledStays }
{
    below();
}

/// The token ring of a settled world, over events without damage, by moves of its head: an event is
/// a run of changes of the copying ring in which the head moves at most once, 6(n - 1) moves make
/// the ring good, and any 8(n - 1) sweeps contain a move.
pub fn head()
    ensures runs { EventIsRingRun }
    ensures moves_turn_good { MovesTurnRingGood }
    ensures moves { HeadMoves }
{
    below();
}

/// The token ring of a settled world, by sweeps: 48(n - 1)(n - 1) sweeps make it good, and so do
/// 16(n - 1); and it stays good.
pub fn ring()
    ensures stays { TokenRingStaysGood }
    ensures turns { TokenRingTurnsGood }
    ensures turns_soon { TokenRingTurnsGoodSoon }
{
    below();
}

/// Where the privilege goes on a good token ring: while the head moves twice, and so in any 16(n -
/// 1) sweeps, each node is privileged at some moment. And in any 8(n - 1) sweeps a machine of each
/// node moves.
pub fn visits()
    ensures in_two_moves { PrivilegeGoesRound }
    ensures in_sweeps { PrivilegeVisits }
    ensures machines { MachinesMove }
{
    below();
}
