//! What holds of nodes that run: each law is the contract of a function that does nothing.
ghost use Rattle.running_nodes.specs.Laws.{TurnsLead, TurnsGoByConnections, EndsAreConnections};
ghost use Rattle.running_nodes.specs.Laws.{NodeRunsAreProcesses, NodeRunsKeepPromise};
ghost use Rattle.running_nodes.specs.Laws.{PortsAreGivenAgain};

use socket_links::Pipe;
use topology::laws as topology_laws;

/// The turns of a node, strung together: what it did leads from the first moment to the last. If
/// what a port's link keeps at first is what its pipe gave and has yet to write, the node took and
/// sent there exactly the frames of some connections, by what their pipes report.
pub fn turns<P: Pipe>()
    ensures lead { TurnsLead P.gave P.took P.counts }
    ensures connections { TurnsGoByConnections P.gave P.took P.counts }
{}

/// The two ends of a connection: if the pipe at one end gives a beginning of what the pipe at the
/// other end took, it carries the frames that were sent there, in order, as far as they came.
pub fn ends<P: Pipe>()
    ensures { EndsAreConnections P.gave P.took }
{}

/// The whole of the headline and the service, for nodes that run. What is asked of the nodes: each
/// goes by turns of a `NodeRun`, and by `attend` between them; and what its ports keep at first is
/// what their pipes gave and have yet to write. What is asked of the pipes: each gives, later, a
/// beginning of what the other end took; connections follow one another; whole lines stand on a
/// link at the start; and at most as many frames as the capacity are under way. The world at the
/// start is in range.
pub fn promise<P: Pipe>()
    ensures are { NodeRunsAreProcesses P.gave P.took P.counts }
    ensures keep { NodeRunsKeepPromise P.gave P.took P.counts }
{
    topology_laws::joined();
    topology_laws::neighbours();
    processes::laws::promise_over_bytes();
}

/// The repetition time is kept: after any instant from its first turn on, a node gives each port
/// whose link takes each frame that is offered, throughout, a frame by the end of each turn that
/// begins `repeat` or more later. Its pace may remember anything at first, as after damage. So a
/// network of such nodes keeps this part of the pace that `processes::laws::pace` asks for.
pub fn gives<P: Pipe>()
    ensures { PortsAreGivenAgain P.gave P.took P.counts }
{}
