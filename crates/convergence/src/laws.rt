//! From any state to a world that serves, and then always does: each law is the contract of a
//! function that does nothing.
ghost use Rattle.convergence.specs.Below.{Below};
ghost use Rattle.convergence.specs.Laws.{LoansStayPrivileged, DesksTurnPrivileged, LegitimateStays};
ghost use Rattle.convergence.specs.Laws.{LegitimateServes, LinksConverge, PayloadsConverge};
ghost use Rattle.convergence.specs.Laws.{TreeConverges};
ghost use Rattle.convergence.specs.Laws.{TokenRingConverges, WorldConverges};
ghost use Rattle.convergence.specs.Sharp.{LinksConvergeSooner, TreeConvergesSooner};
ghost use Rattle.convergence.specs.Sharp.{TokenRingConvergesSooner};
ghost use Rattle.convergence.specs.Sharp.{WorldConvergesSooner, SharpHeadline};
ghost use Rattle.convergence.specs.Service.{LegitimateVisits, EachStateVisits, MovesPassServed};
ghost use Rattle.convergence.specs.Service.{MovesClearDesks};
ghost use Rattle.convergence.specs.Service.{WaitingAreServed};
ghost use Rattle.run_model.specs.Headline.{Headline};

use crate::ring_laws;
use run_model::laws as run_model_laws;
use tree_convergence::laws as tree_convergence_laws;
pub use tree_convergence::laws::links;

/// Everything that this crate knows about the layers below. Each law here is proved only from
/// these.
pub fn below()
    ensures { Below }
{
    topology::laws::tree();
    run_model_laws::loans_need_privilege();
    run_model_laws::waiting_tickets_are_served();
    run_model_laws::one_loan_a_stay();
    ring_laws::below();
    tree_convergence_laws::links();
    tree_convergence_laws::payloads();
    tree_convergence_laws::tree();
    ring_laws::one_token();
    ring_laws::settled();
    ring_laws::ring();
    ring_laws::visits();
}

/// Loans on a good token ring: a loan with privilege keeps it, and one sweep ends every other loan.
pub fn desks()
    ensures loans_stay { LoansStayPrivileged }
    ensures turns { DesksTurnPrivileged }
{
    below();
}

/// Closure: from a legitimate world in range every list of events without damage leads only through
/// legitimate worlds, and a legitimate world in range serves: each distance is the least length of
/// a walk and each parent the true one, at most one node is privileged, and at most one lends.
pub fn closure()
    ensures stays { LegitimateStays }
    ensures serves { LegitimateServes }
{
    below();
}

/// Convergence: from every world in range, over every list of events without damage, the links are
/// stable after 4(C + 1) sweeps. From then on, at the end of any three sweeps, all that is staged
/// and copied is what its node would have said at some moment of them. The tree is reached 4(n + 1)
/// sweeps after the links are stable, and the token ring is good after 48(n - 1)(n - 1) more. After
/// one more, the R-th, the world is legitimate, and so it serves.
pub fn converge()
    ensures links { LinksConverge }
    ensures payloads { PayloadsConverge }
    ensures tree { TreeConverges }
    ensures token_ring { TokenRingConverges }
    ensures world { WorldConverges }
    ensures headline { Headline }
{
    below();
}

/// Convergence by the sharper count, with e the greatest distance of a node from the root: the
/// links are stable after 6 sweeps, whatever their capacity. The tree is reached after 4(e + 2)
/// more, and the token ring is good after 16(n - 1) more. After one more, 16(n - 1) + 4e + 15 in
/// all, the world is legitimate, and so it serves.
pub fn sharp()
    ensures links { LinksConvergeSooner }
    ensures tree { TreeConvergesSooner }
    ensures token_ring { TokenRingConvergesSooner }
    ensures world { WorldConvergesSooner }
    ensures headline { SharpHeadline }
{
    below();
}

/// Service: from a legitimate world in range, over every list of events without damage, each node
/// is privileged at some moment of any 16(n - 1) sweeps. From any other world in range, over that
/// many sweeps more than the sharper bound, the world becomes legitimate, and each node is
/// privileged at some moment after that. While a ticket waits at a desk, a machine of its node
/// moves, and so passes the privilege on, only if the desk is marked as having served, which damage
/// may have written, or a loan ends in that very event; after that the desk is ready to lend. So in
/// a legitimate world a ticket that waits after i others, and does not leave while it waits, is
/// lent the lock within 8(n - 1)(i + 2) sweeps.
pub fn service()
    ensures legitimate { LegitimateVisits }
    ensures each_state { EachStateVisits }
    ensures passes { MovesPassServed }
    ensures clears { MovesClearDesks }
    ensures served { WaitingAreServed }
{
    below();
}
