//! A file of a record whose first entry has been read.
ghost use Rattle.std.specs.Prelude.{◌≡◌, Err};
ghost use Rattle.record_pages.specs.Pages.{ReadsNext};
ghost use Rattle.record_pages.specs.declared.stop.Stop.TheVariants.{Failed};
ghost use Rattle.flight_recorder.specs.flight_records.Again.{no_frames};
ghost use Rattle.gather_command.specs.Reading.{MayFail, Reads, Begins, OpensNoMore, IsReadOn};
ghost use Rattle.gather_command.specs.Reading.{IsFirstOf};
ghost use Rattle.gather_command.specs.Records.{IsBegun, IsChecked};

use crate::fault::{GatherFault, RecordFile};
use crate::records::{Opened, Records};
use record_pages::{Entry, Noted, PageReader, Source, StatePart, Stop};
use std::alloc::Global;
use std::marker::Model;

/// A file of a record whose first entry has been read.
#[derive(Drop)]
pub struct BegunFile<S: Source + Drop> {
    file: RecordFile,
    pages: PageReader<S>,
    first: Entry,
}

impl<S: Source + Drop> Model for BegunFile<S> {
    ghost use Rattle.record_pages.specs.Pages.{to_come};
    ghost use Rattle.gather_command.specs.View.{FileView};

    ghost Value = { FileView };

    ghost view = { λ f. record
        { file = f.file; bytes = to_come (S.rest f.pages.source) f.pages.page; last = f.pages.reader; first = f.first } };
}

impl<S: Source + Drop> BegunFile<S> {
    /// Which file it is.
    pub fn file(&self) -> RecordFile
        ensures { result ≡ self.now.file }
    {
        self.file
    }

    /// Its first entry.
    pub fn first(&self) -> Entry
        ensures { result ≡ self.now.first }
    {
        self.first
    }

    /// Its next entry, in the form in which it was written.
    ///
    /// # Errors
    /// Why there is none.
    pub fn next(&mut self) -> Result<Entry, Stop>
        ensures read { ReadsNext self.old.last result self.old.bytes self.new.bytes self.new.last }
        ensures cause { result ≡ Err Failed → MayFail S.failures }
        ensures same { self.new
            ≡ record self.old { bytes = self.new.bytes; last = self.new.last } }
    {
        self.pages.next()
    }
}

/// Checks that an entry is the start of a state of this file's node, in the network with this
/// number.
fn check_start(entry: &Entry, file: RecordFile, mark: u32) -> Result<(), GatherFault>
    ensures { IsChecked mark file entry.now result }
{
    match entry.noted {
        Noted::State(StatePart::Start { network, .. }) if network != mark => {
            Err(GatherFault::OtherNetwork(file))
        }
        Noted::State(StatePart::Start { node, .. }) if node != file.node => {
            Err(GatherFault::OtherNode(file, node))
        }
        Noted::State(StatePart::Start { .. }) => Ok(()),
        _ => Err(GatherFault::NoRecord(file)),
    }
}

/// Reads the first entry of a file that was opened; none if it is empty.
fn read_first<S: Source + Drop>(
    alloc: Global,
    source: S,
    file: RecordFile,
    mark: u32,
) -> Result<Option<BegunFile<S>>, GatherFault>
    ensures { IsBegun (MayFail S.failures)
        (λ v side es flaw. IsReadOn (MayFail S.failures) 0 no_frames (S.rest source) es flaw)
        (λ v side e. IsFirstOf (S.rest source) e) mark file result }
{
    let Ok(mut pages) = PageReader::new(alloc, source) else {
        return Err(GatherFault::Memory);
    };
    match pages.next() {
        Ok(first) => {
            check_start(&first, file, mark)?;
            Ok(Some(BegunFile { file, pages, first }))
        }
        Err(Stop::End) => Ok(None),
        Err(Stop::Torn) => Err(GatherFault::NoRecord(file)),
        Err(Stop::Invalid) => Err(GatherFault::NoRecord(file)),
        Err(Stop::Failed) => Err(GatherFault::Unreadable(file)),
    }
}

/// Opens a file of a record and reads its first entry; none if the file is not there, or is empty.
pub fn begin_file<R: Records>(
    alloc: Global,
    records: &mut R,
    file: RecordFile,
    mark: u32,
) -> Result<Option<BegunFile<R::File>>, GatherFault>
    ensures begun { IsBegun (MayFail R.File.failures)
        (Reads (R.opens records.old) R.File.rest (MayFail R.File.failures))
        (Begins (R.opens records.old) R.File.rest) mark file result }
    ensures same { OpensNoMore (R.opens records.old) (R.opens records.new) }
{
    match records.open(file.node, file.side) {
        Opened::File(source) => read_first(alloc, source, file, mark),
        Opened::Absent => Ok(None),
        Opened::Unreadable => Err(GatherFault::Unreadable(file)),
        Opened::NoMemory => Err(GatherFault::Memory),
    }
}
