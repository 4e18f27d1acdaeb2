//! The records of all nodes, or a stretch of them, woven into one list of events.
ghost use Rattle.std.specs.Prelude.{◌≡◌, ◌≤◌, ◌∷◌, [], ℕ, List, IfOk, IfErr, OnOk, Some, length};
ghost use Rattle.gather_command.specs.Reading.{MayFail, Reads, Begins};
ghost use Rattle.gather_command.specs.Weave.{Moment, moment_at};
ghost use Rattle.gather_command.specs.Woven.{world_in, IsTurn, HasLed, IsOnePassed, ArePassed};
ghost use Rattle.gather_command.specs.Woven.{IsBroken};
ghost use Rattle.gather_command.specs.Gathered.{IsRefused};
ghost use Rattle.gather_command.specs.Part.{IsGatheredOf, IsGatheredAs, IsWovenFrom, IsSetThere};

use crate::fault::GatherFault;
use crate::gathered::{Gathered, gather_whole, open_all, weave_out};
use crate::node_record::NodeRecord;
use crate::records::Records;
use crate::scene::set_up;
use crate::stretch::{TimeStretch, after_first, before_last, earliest, latest};
use crate::weaving::Weaving;
use command_parts::EventSink;
use record_gathering::Event;
use record_pages::{Entry, Source};
use std::alloc::{AllocError, Global};
use topology::Net;

/// Weaves the records of all nodes of a network, or a stretch of them, into one list of events,
/// which go to the sink. Of the nodes' next entries, the earliest that is ready comes next. A frame
/// that was taken is ready if it is under way, a frame that was sent if its link has room; any
/// other entry always is, and so is a frame that cannot be on its link. If none is ready, the
/// earliest frame that was sent comes next; if there is none, the earliest that was taken, which
/// was not under way. If entries come before the stretch, the list begins with events that set up
/// the network as it stood when the first entry of the stretch came next: first edges that had
/// joined or parted, then the state of each node, and last what was under way. The summary counts
/// these events among its events and harms, but it does not count the frames that were under way
/// among those that nobody sent. It counts nothing else of what was woven before; a loan that had
/// begun counts from its node's next entry on.
///
/// # Errors
/// If a node has no record, if a file cannot be read or is no record of its node in this network, if the
/// sink fails, if memory runs out, or if there are too many entries.
pub fn gather_stretch<R: Records, S: EventSink>(
    alloc: Global,
    net: &Net,
    records: &mut R,
    stretch: TimeStretch,
    sink: &mut S,
) -> Result<Gathered, GatherFault>
    // The summary counts the events; each difference is one of a node, and each flaw one of a file.
    ensures gathered { IfOk result (λ g. IsGatheredAs stretch
        (Reads (R.opens records.old) R.File.rest (MayFail R.File.failures)) S.takes
        net.now sink.old g.summary g.differences.items g.flaws.items sink.new) }
    ensures counted { OnOk result (S.failures sink.old ≤ S.failures sink.new) }
    ensures refused { IfErr result (λ fault.
        IsRefused (Reads (R.opens records.old) R.File.rest (MayFail R.File.failures))
        (Begins (R.opens records.old) R.File.rest) S.failures net.now sink.old fault sink.new) }
{
    // For the last seconds all records are read to their ends first.
    let last = match stretch {
        TimeStretch::Last(_) => latest(alloc, net, records)?,
        TimeStretch::Whole | TimeStretch::From(_) => 0,
    };
    let nodes = open_all(alloc, net, records)?;
    let instant = match stretch {
        TimeStretch::Whole => return gather_whole(alloc, net, nodes, sink),
        TimeStretch::From(seconds) => after_first(earliest(&nodes), seconds),
        TimeStretch::Last(seconds) => before_last(last, seconds),
    };
    gather_opened(alloc, net, nodes, instant, sink)
}

/// Gathers what comes at an instant and later, of records that were opened.
fn gather_opened<F: Source + Drop, S: EventSink>(
    alloc: Global,
    net: &Net,
    nodes: Vec<NodeRecord<F>>,
    instant: u64,
    sink: &mut S,
) -> Result<Gathered, GatherFault>
    requires { length nodes.items ≡ net.now.nodes }
    ensures gathered { IfOk result (λ g. IsGatheredOf (MayFail F.failures) S.takes net.now instant
        nodes.items sink.old g.summary g.differences.items g.flaws.items sink.new) }
    ensures counted { OnOk result (S.failures sink.old ≤ S.failures sink.new) }
    ensures broken { IfErr result (λ fault.
        IsBroken fault (S.failures sink.old) (S.failures sink.new)) }
{
    let mut weaving = Weaving::new(alloc, net, nodes)?;
    weave_from(alloc, net, &mut weaving, instant, sink)
}

/// Weaves all entries that are left. Gathers what comes at an instant and later. The list begins with
/// events that set up the network as it stood when the first of these entries came next.
fn weave_from<F: Source + Drop, S: EventSink>(
    alloc: Global,
    net: &Net,
    weaving: &mut Weaving<F>,
    instant: u64,
    sink: &mut S,
) -> Result<Gathered, GatherFault>
    requires { (world_in weaving.old).net.nodes ≡ net.now.nodes }
    ensures woven { IfOk result (λ g. IsWovenFrom (MayFail F.failures) S.takes S.failures net.now
        instant weaving.old sink.old g.summary g.differences.items g.flaws.items weaving.new
        sink.new) }
    ensures broken { IfErr result (λ fault.
        IsBroken fault (S.failures sink.old) (S.failures sink.new)) }
{
    weave_until(alloc, weaving, instant)?;
    set_there(alloc, net, weaving, sink)?;
    weave_out(alloc, net, weaving, sink)
}

/// Sets up the network as the world of a weaving stands, and lets the weaving go on there. The sink takes
/// the events that lead there.
fn set_there<F: Source + Drop, S: EventSink>(
    alloc: Global,
    net: &Net,
    weaving: &mut Weaving<F>,
    sink: &mut S,
) -> Result<(), GatherFault>
    requires { (world_in weaving.old).net.nodes ≡ net.now.nodes }
    ensures set { OnOk result (IsSetThere S.takes S.failures net.now weaving.old sink.old
        weaving.new sink.new) }
    ensures broken { IfErr result (λ fault.
        IsBroken fault (S.failures sink.old) (S.failures sink.new)) }
{
    let scene = set_up(alloc, net, weaving.world(), sink)?;
    let (gathering, found) = scene.into_parts();
    weaving.moves_to(gathering, found);
    Ok(())
}

/// Weaves entries, one after the other, until one of this instant or later comes next, or none is left.
/// Their events go nowhere.
fn weave_until<S: Source + Drop>(
    alloc: Global,
    weaving: &mut Weaving<S>,
    instant: u64,
) -> Result<(), GatherFault>
    ensures passed { OnOk result ((ms : List Moment)
        × ArePassed (MayFail S.failures) instant weaving.old ms weaving.new) }
    // The sink is not to blame.
    ensures broken { IfErr result (λ fault. (n : ℕ) → IsBroken fault n n) }
{
    let mut events = Vec::new(alloc);
    for _ in 0..u64::MAX {
        if !pass_before(weaving, instant, &mut events)? {
            return Ok(());
        }
    }
    Err(GatherFault::TooMany)
}

/// Weaves the entry that comes next, if there is one and it is earlier than this instant. Returns whether
/// it did.
fn pass_before<S: Source + Drop>(
    weaving: &mut Weaving<S>,
    instant: u64,
    events: &mut Vec<Event>,
) -> Result<bool, AllocError>
    ensures { IfOk result (λ did.
        IsOnePassed (MayFail S.failures) instant weaving.old did weaving.new) }
{
    let Some((node, entry)) = weaving.turn() else {
        return Ok(false);
    };
    if instant <= entry.instant {
        return Ok(false);
    }
    pass_turn(weaving, node, &entry, events)?;
    Ok(true)
}

/// Weaves this entry, which comes next.
fn pass_turn<S: Source + Drop>(
    weaving: &mut Weaving<S>,
    node: u16,
    entry: &Entry,
    events: &mut Vec<Event>,
) -> Result<(), AllocError>
    requires { IsTurn weaving.old (Some (node, entry.now)) }
    ensures { OnOk result (HasLed (MayFail S.failures) weaving.old
        (moment_at (world_in weaving.old) weaving.old.gathering.queues node entry.now ∷ [])
        weaving.new) }
{
    weaving.notes(node, entry, events)?;
    weaving.passes(node);
    Ok(())
}
