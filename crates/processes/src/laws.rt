//! What holds of processes: each law is the contract of a function that does nothing.
ghost use Rattle.processes.specs.LinkLaws.{ConnectionsPlay, PipesAreConnections};
ghost use Rattle.processes.specs.LinkLaws.{ConnectionsGiveABeginning, BytesKeepOrder};
ghost use Rattle.processes.specs.LinkLaws.{BytesAreHistory, HistoriesGiveFrames, JunkSpoilsOneFrame};
ghost use Rattle.processes.specs.Laws.{ProcessesHaveOrder, OrdersAreRuns, ProcessesKeepPromise};
ghost use Rattle.processes.specs.Turns.{PaceGivesWindows};
ghost use Rattle.processes.specs.TimeLaws.{WindowsAreSweeps, ServesInTime, LendsInTime};
ghost use Rattle.processes.specs.Loans.{TurnsTickFully, PremisesGiveWindows};
ghost use Rattle.processes.specs.Loans.{RecoversInTime, WaitsInTime};
ghost use Rattle.processes.specs.Laws.{BytesAreProcesses, BytesKeepPromise};

use convergence::laws as convergence_laws;
use frame_codec::laws as frame_codec_laws;
use run_model::laws as run_model_laws;
use topology::laws as topology_laws;

/// What processes did is a run: their deeds, with the losses between them, have an order by
/// instants, and each such order leads from the world at the start to that at the end. So all laws of
/// runs hold of running nodes.
pub fn runs()
    ensures order { ProcessesHaveOrder }
    ensures run { OrdersAreRuns }
{
    topology_laws::joined();
    topology_laws::neighbours();
}

/// The headline and the service of processes: once that run holds as many sweeps as the bound says,
/// the network serves, and goes on serving; and then a ticket that waits after i others, and does
/// not leave while it waits, is lent the lock within 8(n - 1)(i + 2) sweeps.
pub fn promise()
    ensures { ProcessesKeepPromise }
{
    runs();
    run_model_laws::runs();
    run_model_laws::in_range();
    convergence_laws::converge();
    convergence_laws::sharp();
    convergence_laws::service();
}

/// A link that is one connection after another: if each keeps order and loses nothing until it
/// ends, and at most as many frames as the capacity are under way, a link of that capacity can do
/// all their acts, one after the other. These acts are a history, as the laws above ask, if they
/// are also in order by instants and those of the link's two ends. And the frames of a history are
/// those that the accounts of the two ends speak of.
pub fn connections()
    ensures play { ConnectionsPlay }
    ensures frames { HistoriesGiveFrames }
{}

/// A connection of bytes: two pipes, of which one gives a beginning of what the other took. It
/// keeps order and loses nothing until it ends, if no half line stood on it at the start, what was
/// sent on it is in range, and at most as many frames as the capacity are under way. So a link that
/// is one such connection after another has a history, if the acts are also those of its two ends,
/// and in order by instants. That order asks that no frame is accepted at an instant at which one
/// is taken, and that a connection ends later than its last act if frames are left on it. A half
/// line that stood on a connection at the start spoils at most one frame.
pub fn bytes()
    ensures pipes { PipesAreConnections }
    ensures beginning { ConnectionsGiveABeginning }
    ensures order { BytesKeepOrder }
    ensures history { BytesAreHistory }
    ensures spoils { JunkSpoilsOneFrame }
{
    byte_lines::laws::lines_grow();
    frame_codec_laws::one_reading();
    frame_codec_laws::any_cutting();
    frame_codec_laws::junk_ends_at_newline();
}

/// The whole of the headline and the service, for processes over bytes. What is asked: the nodes go
/// by their own steps; each link is one connection of bytes after another, on which whole lines
/// stand at the start; what happens on a link is in order by instants; on one link no frame is
/// accepted at an instant at which one is taken; a connection ends later than its last act if
/// frames are left on it; and at most as many frames as the capacity are under way on a link. What
/// a node sends is in range by itself.
pub fn promise_over_bytes()
    ensures are { BytesAreProcesses }
    ensures keep { BytesKeepPromise }
{
    topology_laws::limits();
    topology_laws::joined();
    topology_laws::neighbours();
    run_model_laws::in_range();
    bytes();
    promise();
}

/// The same in time: if each window of that length, from one instant to another, holds a full
/// tick of each node, and each link hands over a frame that it accepted inside the window, each
/// window is a sweep. So after 16(n - 1) + 4e + 15 windows the network serves, and from then on a
/// ticket that waits after i others, and does not leave while it waits, is lent the lock within
/// 8(n - 1)(i + 2) windows. A bound on the turns of the nodes thus gives a time of recovery.
pub fn windows()
    ensures sweeps { WindowsAreSweeps }
    ensures serves { ServesInTime }
    ensures lends { LendsInTime }
{
    topology_laws::joined();
    topology_laws::neighbours();
    run_model_laws::runs();
    run_model_laws::in_range();
    run_model_laws::sweep_numbers();
    convergence_laws::sharp();
    convergence_laws::service();
    convergence_laws::converge();
}

/// How long a window is: max(full, repeat + 2 turn + delay) is enough for `windows`. That holds if
/// each node has a whole turn in each stretch of `turn`, a port that was given nothing for `repeat` is
/// given a frame in the next turn, a frame is taken in the next turn that begins `delay` after it was
/// accepted, and each node has a full tick in each stretch of `full`. So a window follows from these
/// four, once they are measured.
pub fn pace()
    ensures { PaceGivesWindows }
{
    topology_laws::joined();
}

/// Recovery and service as times, from what is believed of a machine: each stretch of `turn` holds a
/// whole turn of each node; a port that was given nothing for `repeat` is given a frame in the next
/// turn; a frame is taken in the next turn that begins `delay` after it was accepted; a node ticks in
/// each of its turns, unless it lends; and each loan, also one that a fault forged, ends within
/// `loan`: if that is 0, no node lends. Then each stretch of `recovery_times`' `full_of` holds a full
/// tick of each node, a window is a sweep, and the network serves after the time that `tokentree
/// bound --time` prints, from every state. If `loan` is above 0, a ticket that waits from then on is
/// lent the lock within the time for its place. With 0 this says nothing, since no node lends.
pub fn premises()
    ensures full { TurnsTickFully }
    ensures windows { PremisesGiveWindows }
    ensures recovers { RecoversInTime }
    ensures lends { WaitsInTime }
{
    topology_laws::joined();
    windows();
}
