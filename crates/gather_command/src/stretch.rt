//! Which stretch of time of the records is gathered, and where it begins.
ghost use Rattle.std.specs.Prelude.{◌≡◌, ◌⊎◌, IfErr, IfOk, OnOk};
ghost use Rattle.node_recorder.specs.Turns.{network_mark};
ghost use Rattle.gather_command.specs.declared.fault.GatherFault.TheVariants.{TooMany};
ghost use Rattle.gather_command.specs.Reading.{MayFail, Reads, Begins, OpensNoMore};
ghost use Rattle.gather_command.specs.Records.{IsFault, IsRecordOf, IsToCome};
ghost use Rattle.gather_command.specs.View.{heads_in};
ghost use Rattle.gather_command.specs.Stretch.{earlier_of, later_of, least_of, greatest_in};
ghost use Rattle.gather_command.specs.Stretch.{after_first, before_last, IsReadThrough, IsLatest};

use crate::fault::GatherFault;
use crate::node_record::NodeRecord;
use crate::records::Records;
use node_recorder::network_mark;
use record_pages::{Entry, Source};
use std::alloc::Global;
use topology::Net;

/// Which stretch of time of the records is gathered.
#[derive(Clone, Copy)]
pub enum TimeStretch {
    /// All that the records hold.
    Whole,
    /// What comes this many seconds after the earliest entry of all records, and later.
    From(u32),
    /// What comes this many seconds before the latest entry of all records, and later.
    Last(u32),
}

/// The microseconds of a second.
const SECOND: u64 = 1_000_000;

/// The instant this many seconds after a given one, in microseconds; at most the greatest 64-bit
/// number.
pub fn after_first(first: u64, seconds: u32) -> u64
    ensures { result ≡ after_first first seconds }
{
    first.saturating_add(u64::from(seconds) * SECOND)
}

/// The instant this many seconds before a given one, in microseconds; 0 if there is no such instant.
pub fn before_last(last: u64, seconds: u32) -> u64
    ensures { result ≡ before_last last seconds }
{
    last.saturating_sub(u64::from(seconds) * SECOND)
}

/// The earlier of an instant and that of an entry; the given instant if there is no entry.
fn earlier_of(least: u64, head: Option<Entry>) -> u64
    ensures { result ≡ earlier_of least head }
{
    match head {
        Some(entry) => least.min(entry.instant),
        None => least,
    }
}

/// The instant of the earliest of the next entries of all records; 2^64 - 1 if there is none.
pub fn earliest<S: Source + Drop>(nodes: &[NodeRecord<S>]) -> u64
    ensures { result ≡ least_of (heads_in nodes.now) }
{
    let mut least = u64::MAX;
    for node in nodes {
        least = earlier_of(least, node.head());
    }
    least
}

/// The latest of a given instant and those of the entries that are still to come of a record, which
/// is read to its end.
fn read_through<S: Source + Drop>(
    opened: &mut NodeRecord<S>,
    greatest: u64,
) -> Result<u64, GatherFault>
    ensures read { IfOk result (IsReadThrough (MayFail S.failures) opened.old greatest) }
    ensures broken { IfErr result (λ fault. fault ≡ TooMany) }
{
    let mut latest = greatest;
    for _ in 0..u64::MAX {
        let Some(entry) = opened.head() else {
            return Ok(latest);
        };
        latest = latest.max(entry.instant);
        opened.advance();
    }
    Err(GatherFault::TooMany)
}

/// The instant of the latest entry of all records, each of which is read to its end.
///
/// # Errors
/// If a record is missing, unreadable or invalid, if memory runs out, or if there are too many
/// entries.
pub fn latest<R: Records>(alloc: Global, net: &Net, records: &mut R) -> Result<u64, GatherFault>
    ensures found { IfOk result (λ t. IsLatest
        (Reads (R.opens records.old) R.File.rest (MayFail R.File.failures)) net.now t) }
    // Whatever may be opened afterwards could also be opened before.
    ensures same { OnOk result (OpensNoMore (R.opens records.old) (R.opens records.new)) }
    ensures refused { IfErr result (λ fault. (fault ≡ TooMany) ⊎ IsFault
        (Reads (R.opens records.old) R.File.rest (MayFail R.File.failures))
        (Begins (R.opens records.old) R.File.rest) (network_mark net.now) net.now.nodes fault) }
{
    let mark = network_mark(net);
    let mut greatest = 0;
    for node in 0..net.nodes() {
        let mut opened = NodeRecord::open(alloc, records, node, mark)?;
        greatest = read_through(&mut opened, greatest)?;
    }
    Ok(greatest)
}
