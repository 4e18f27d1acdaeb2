//! The records of all nodes, woven into one list of events.
ghost use Rattle.std.specs.Prelude.{◌≡◌, ◌≤◌, ◌++◌, ◌∷◌, [], Some, IfOk, IfErr, OnOk, length};
ghost use Rattle.record_pages.specs.byte_streams.Streams.{CountsFailures};
ghost use Rattle.node_recorder.specs.Turns.{network_mark};
ghost use Rattle.gather_command.specs.declared.fault.GatherFault.TheVariants.{Memory, Output};
ghost use Rattle.gather_command.specs.Reading.{MayFail, Reads, Begins};
ghost use Rattle.gather_command.specs.Records.{IsFault};
ghost use Rattle.gather_command.specs.Weave.{moment_at};
ghost use Rattle.gather_command.specs.Woven.{IsOneWoven, AreAllWoven, IsTurn, HasWoven, IsBroken};
ghost use Rattle.gather_command.specs.Woven.{world_in};
ghost use Rattle.gather_command.specs.Gathered.{AreOpened, IsFinished, IsGatheredWhole};
ghost use Rattle.gather_command.specs.Gathered.{IsWovenOut};

use crate::damage::Difference;
use crate::fault::{Flaw, GatherFault};
use crate::node_record::NodeRecord;
use crate::records::Records;
use crate::summary::RecordingSummary;
use crate::weaving::Weaving;
use command_parts::EventSink;
use node_recorder::network_mark;
use record_gathering::Event;
use record_pages::{Entry, Failed, Source};
use std::alloc::{AllocError, Global};
use topology::Net;

/// What was gathered.
#[derive(Drop)]
pub struct Gathered {
    /// What it shows, in numbers.
    pub summary: RecordingSummary,
    /// The first fields that differed from what their nodes' records led to, 64 at most.
    pub differences: Vec<Difference>,
    /// The files that were not read to their ends.
    pub flaws: Vec<Flaw>,
}

impl From<AllocError> for GatherFault {
    ghost from_gives = { λ _ fault. fault ≡ Memory };

    fn from(_refused: AllocError) -> GatherFault {
        GatherFault::Memory
    }
}

impl From<Failed> for GatherFault {
    ghost from_gives = { λ _ fault. fault ≡ Output };

    fn from(_failed: Failed) -> GatherFault {
        GatherFault::Output
    }
}

/// Gathers all that is to come of records that were opened.
pub fn gather_whole<F: Source + Drop, S: EventSink>(
    alloc: Global,
    net: &Net,
    nodes: Vec<NodeRecord<F>>,
    sink: &mut S,
) -> Result<Gathered, GatherFault>
    requires { length nodes.items ≡ net.now.nodes }
    ensures gathered { IfOk result (λ g. IsGatheredWhole (MayFail F.failures) S.takes net.now
        nodes.items sink.old g.summary g.differences.items g.flaws.items sink.new) }
    ensures counted { OnOk result (S.failures sink.old ≤ S.failures sink.new) }
    ensures broken { IfErr result (λ fault.
        IsBroken fault (S.failures sink.old) (S.failures sink.new)) }
{
    let mut weaving = Weaving::new(alloc, net, nodes)?;
    weave_out(alloc, net, &mut weaving, sink)
}

/// Weaves all entries that are left, and gathers what is seen of them and of those before.
pub fn weave_out<F: Source + Drop, S: EventSink>(
    alloc: Global,
    net: &Net,
    weaving: &mut Weaving<F>,
    sink: &mut S,
) -> Result<Gathered, GatherFault>
    ensures woven { IfOk result (λ g. IsWovenOut (MayFail F.failures) S.takes S.failures net.now
        weaving.old sink.old g.summary g.differences.items g.flaws.items weaving.new sink.new) }
    ensures broken { IfErr result (λ fault.
        IsBroken fault (S.failures sink.old) (S.failures sink.new)) }
{
    weave_all(alloc, weaving, sink)?;
    let gathered = finish(alloc, net, weaving)?;
    Ok(gathered)
}

/// What a weaving of all nodes' records shows once no entry is left.
fn finish<S: Source + Drop>(
    alloc: Global,
    net: &Net,
    weaving: &Weaving<S>,
) -> Result<Gathered, AllocError>
    ensures { IfOk result (λ g. IsFinished net.now weaving.now g.summary g.differences.items
        g.flaws.items) }
{
    Ok(Gathered {
        summary: weaving.numbers(net.nodes()),
        differences: weaving.differences(alloc)?,
        flaws: weaving.flaws(alloc)?,
    })
}

/// Opens the records of all nodes.
pub fn open_all<R: Records>(
    alloc: Global,
    net: &Net,
    records: &mut R,
) -> Result<Vec<NodeRecord<R::File>>, GatherFault>
    ensures opened { IfOk result (λ nodes. AreOpened (MayFail R.File.failures)
        (Reads (R.opens records.old) R.File.rest (MayFail R.File.failures))
        (network_mark net.now) 0 nodes.items) }
    ensures all { IfOk result (λ nodes. length nodes.items ≡ net.now.nodes) }
    ensures refused { IfErr result (IsFault
        (Reads (R.opens records.old) R.File.rest (MayFail R.File.failures))
        (Begins (R.opens records.old) R.File.rest) (network_mark net.now) net.now.nodes) }
{
    let mark = network_mark(net);
    let mut nodes = Vec::new(alloc);
    for node in 0..net.nodes() {
        let opened = NodeRecord::open(alloc, records, node, mark)?;
        add_record(&mut nodes, opened)?;
    }
    Ok(nodes)
}

/// Adds a record.
fn add_record<S: Source + Drop>(
    nodes: &mut Vec<NodeRecord<S>>,
    opened: NodeRecord<S>,
) -> Result<(), AllocError>
    ensures { OnOk result (nodes.new.items ≡ nodes.old.items ++ opened ∷ []) }
{
    nodes.push(opened)?;
    Ok(())
}

/// Weaves entries, one after the other, until none is left.
fn weave_all<S: Source + Drop, K: EventSink>(
    alloc: Global,
    weaving: &mut Weaving<S>,
    sink: &mut K,
) -> Result<(), GatherFault>
    ensures { AreAllWoven (MayFail S.failures) K.takes K.failures weaving.old sink.old result
        weaving.new sink.new }
{
    let mut events = Vec::new(alloc);
    for _ in 0..u64::MAX {
        if !weave_next(weaving, &mut events, sink)? {
            return Ok(());
        }
    }
    Err(GatherFault::TooMany)
}

/// Weaves the entry that comes next, if there is one. Returns whether there was one.
fn weave_next<S: Source + Drop, K: EventSink>(
    weaving: &mut Weaving<S>,
    events: &mut Vec<Event>,
    sink: &mut K,
) -> Result<bool, GatherFault>
    ensures { IsOneWoven (MayFail S.failures) K.takes K.failures weaving.old sink.old result
        weaving.new sink.new }
{
    let Some((node, entry)) = weaving.turn() else {
        return Ok(false);
    };
    weave_turn(weaving, node, &entry, events, sink)?;
    Ok(true)
}

/// Weaves this entry, which comes next.
fn weave_turn<S: Source + Drop, K: EventSink>(
    weaving: &mut Weaving<S>,
    node: u16,
    entry: &Entry,
    events: &mut Vec<Event>,
    sink: &mut K,
) -> Result<(), GatherFault>
    requires { IsTurn weaving.old (Some (node, entry.now)) }
    ensures woven { OnOk result (HasWoven (MayFail S.failures) K.takes K.failures weaving.old sink.old
        (moment_at (world_in weaving.old) weaving.old.gathering.queues node entry.now ∷ [])
        weaving.new sink.new) }
    ensures broken { IfErr result (λ fault.
        IsBroken fault (K.failures sink.old) (K.failures sink.new)) }
{
    weaving.notes(node, entry, events)?;
    give_all(events, sink)?;
    weaving.passes(node);
    Ok(())
}

/// Gives the sink these events, one by one.
pub fn give_all<K: EventSink>(events: &[Event], sink: &mut K) -> Result<(), Failed>
    ensures taken { OnOk result (K.takes sink.old events.now sink.new) }
    ensures cause { CountsFailures result (K.failures sink.old) (K.failures sink.new) }
{
    for event in events {
        sink.take(event)?;
    }
    Ok(())
}
