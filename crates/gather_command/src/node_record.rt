//! The record of one node, entry by entry.
ghost use Rattle.std.specs.Prelude.{◌≡◌};
ghost use Rattle.gather_command.specs.Reading.{MayFail, Reads, Begins, OpensNoMore, flaw_for};
ghost use Rattle.gather_command.specs.Records.{flaw_at, IsOpened, at_first, of_both, of_files};
ghost use Rattle.gather_command.specs.Records.{IsReadBy, after_file, GoesOn};

use crate::begun_file::{BegunFile, begin_file};
use crate::fault::{Flaw, FlawKind, GatherFault, RecordFile};
use crate::records::Records;
use flight_recorder::Side;
use record_pages::{Entry, LastFrames, Source, Stop};
use std::alloc::Global;
use std::marker::Model;

/// The record of one node: its files, the earlier one first, and the entry that comes next. At most a
/// page of each file is in memory.
#[derive(Drop)]
pub struct NodeRecord<S: Source + Drop> {
    present: BegunFile<S>,
    later: Option<BegunFile<S>>,
    frames: LastFrames,
    head: Option<Entry>,
    /// What was wrong with the file that was read before this one.
    earlier: Option<Flaw>,
    /// What is wrong with this one, once it is read.
    flaw: Option<Flaw>,
}

impl<S: Source + Drop> Model for NodeRecord<S> {
    ghost use Rattle.gather_command.specs.View.{NodeRecordView};

    ghost Value = { NodeRecordView };

    ghost view = { λ r. record
        { present = r.present; later = r.later; frames = r.frames; head = r.head; earlier = r.earlier; flaw = r.flaw } };
}

/// What is wrong with a file whose last entry that was read is of this instant.
fn flaw_at(file: RecordFile, instant: u64, kind: Option<FlawKind>) -> Option<Flaw>
    ensures { result ≡ flaw_at file instant kind }
{
    match kind {
        Some(kind) => Some(Flaw {
            file,
            kind,
            instant,
        }),
        None => None,
    }
}

/// What is wrong with a file that gave no further entry for this reason; none if it is at its end.
fn flaw_for(stop: Stop) -> Option<FlawKind>
    ensures { result ≡ flaw_for stop }
{
    match stop {
        Stop::End => None,
        Stop::Torn => Some(FlawKind::Torn),
        Stop::Invalid => Some(FlawKind::Spoiled),
        Stop::Failed => Some(FlawKind::Unreadable),
    }
}

impl<S: Source + Drop> NodeRecord<S> {
    /// The record of a node of the network with this number.
    ///
    /// # Errors
    /// If the node has no record, or if one of its files cannot be read, is no record, or is that
    /// of another node or another network, or if memory runs out.
    pub fn open<R: Records<File = S>>(
        alloc: Global,
        records: &mut R,
        node: u16,
        mark: u32,
    ) -> Result<NodeRecord<S>, GatherFault>
        ensures opened { IsOpened (MayFail S.failures)
            (Reads (R.opens records.old) S.rest (MayFail S.failures))
            (Begins (R.opens records.old) S.rest) mark node result }
        ensures same { OpensNoMore (R.opens records.old) (R.opens records.new) }
    {
        let first = RecordFile {
            node,
            side: Side::First,
        };
        let second = RecordFile {
            node,
            side: Side::Second,
        };
        let first = begin_file(alloc, records, first, mark)?;
        let second = begin_file(alloc, records, second, mark)?;
        NodeRecord::of_files(node, first, second)
    }

    /// A node's record of these files, either of which may be none.
    fn of_files(
        node: u16,
        first: Option<BegunFile<S>>,
        second: Option<BegunFile<S>>,
    ) -> Result<NodeRecord<S>, GatherFault>
        ensures { result ≡ of_files node first second }
    {
        match (first, second) {
            (Some(first), Some(second)) => Ok(NodeRecord::of_both(first, second)),
            (Some(first), None) => Ok(NodeRecord::at_first(first, None)),
            (None, Some(second)) => Ok(NodeRecord::at_first(second, None)),
            (None, None) => Err(GatherFault::Absent(node)),
        }
    }

    /// A record of these files: the earlier one comes first.
    fn of_both(first: BegunFile<S>, second: BegunFile<S>) -> NodeRecord<S>
        ensures { result ≡ of_both first second }
    {
        if second.first().instant < first.first().instant {
            NodeRecord::at_first(second, Some(first))
        } else {
            NodeRecord::at_first(first, Some(second))
        }
    }

    /// A record at its first entry, of these files.
    fn at_first(now: BegunFile<S>, later: Option<BegunFile<S>>) -> NodeRecord<S>
        ensures { result ≡ at_first now later }
    {
        let head = Some(now.first());
        NodeRecord {
            present: now,
            later,
            frames: LastFrames::new(),
            head,
            earlier: None,
            flaw: None,
        }
    }

    /// The next entry, with its frame in full; none at the record's end.
    pub fn head(&self) -> Option<Entry>
        ensures { result ≡ self.now.head }
    {
        self.head
    }

    /// What was wrong with the file before the one that is read now; none if there was no such file,
    /// or nothing was wrong with it.
    pub fn earlier(&self) -> Option<Flaw>
        ensures { result ≡ self.now.earlier }
    {
        self.earlier
    }

    /// What was wrong with the last file.
    pub fn flaw(&self) -> Option<Flaw>
        ensures { result ≡ self.now.flaw }
    {
        self.flaw
    }

    /// Passes over the next entry.
    pub fn advance(&mut self)
        ensures { GoesOn (MayFail S.failures) self.old self.new }
    {
        let Some(passed) = self.head else {
            return;
        };
        match self.read_on() {
            Ok(entry) => self.head = Some(entry),
            Err(kind) => self.end_file(kind, passed.instant),
        }
    }

    /// The next entry of the file, with its frame in full.
    ///
    /// # Errors
    /// What is wrong with the file, if it was not read to its end; else none.
    fn read_on(&mut self) -> Result<Entry, Option<FlawKind>>
        ensures read { IsReadBy (MayFail S.failures) self.old result self.new }
        ensures file { self.new.present.file ≡ self.old.present.file }
        ensures same { self.new
            ≡ record self.old { present = self.new.present; frames = self.new.frames } }
    {
        match self.present.next() {
            Ok(entry) => {
                let Some(noted) = self.frames.lengthen(&entry.noted) else {
                    return Err(Some(FlawKind::Spoiled));
                };
                Ok(Entry {
                    instant: entry.instant,
                    noted,
                })
            }
            Err(stop) => Err(flaw_for(stop)),
        }
    }

    /// The file has ended: goes on to the later one, if there is one, at its first entry.
    fn end_file(&mut self, kind: Option<FlawKind>, instant: u64)
        ensures { self.new ≡ after_file kind instant self.old }
    {
        let flaw = flaw_at(self.present.file(), instant, kind);
        match self.later.take() {
            Some(later) => {
                self.frames = LastFrames::new();
                self.head = Some(later.first());
                self.present = later;
                self.earlier = flaw;
            }
            None => {
                self.head = None;
                self.flaw = flaw;
            }
        }
    }
}
