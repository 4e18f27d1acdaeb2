//! The entries of a record, of which a page at a time is at hand.
ghost use Rattle.std.specs.Prelude.{◌≡◌, ◌+◌, ◌<◌, ◌≤◌, IfOk, IsOk, OnOk, OnErr, Some, [], length};
ghost use Rattle.byte_streams.specs.Streams.{CountsFailures};
ghost use Rattle.record_pages.specs.Pages.{to_come, has_ended, IsAsked, IsAtHand, IsReadOf};
ghost use Rattle.record_pages.specs.Pages.{FailsAsSource, ReadsNext};

use crate::page::{LONGEST, PAGE, UnreadBytes};
use crate::stop::Stop;
use byte_streams::{Failed, Source};
use flight_records::{Entry, EntryReader, Unread, laws as flight_records_laws};
use std::alloc::{AllocError, Allocator, Global};

/// Reads the entries of a record, of which it keeps a page at a time.
#[derive(Drop)]
pub struct PageReader<S, A: Allocator = Global> {
    source: S,
    /// What the source gave and is not yet read.
    page: UnreadBytes<A>,
    reader: EntryReader,
}

impl<S: Source + Drop, A: Allocator> PageReader<S, A> {
    /// A reader of the record whose bytes the source gives. All memory is reserved here; `AllocError`
    /// comes only if that is refused.
    pub fn new(alloc: A, source: S) -> Result<PageReader<S, A>, AllocError>
        ensures { IfOk result (λ r. (r.source ≡ source) × (r.page ≡ []) × (r.reader ≡ 0)) }
    {
        Ok(PageReader {
            source,
            page: UnreadBytes::new(alloc)?,
            reader: EntryReader::new(),
        })
    }

    /// The next entry, in the form in which it was written.
    ///
    /// # Errors
    /// Why there is none. Then the reader is where it was.
    pub fn next(&mut self) -> Result<Entry, Stop>
        // As if all bytes that the source has still to give were at hand.
        ensures read { ReadsNext self.old.reader result
            (to_come (S.rest self.old.source) self.old.page)
            (to_come (S.rest self.new.source) self.new.page) self.new.reader }
        ensures cause { FailsAsSource result (S.failures self.old.source)
            (S.failures self.new.source) }
    {
        flight_records_laws::pieces_are_read();
        if self.fill().is_err() {
            return Err(Stop::Failed);
        }
        read_front(&mut self.reader, &mut self.page)
    }

    /// Asks the source for bytes until an entry is at hand, or the source has ended.
    fn fill(&mut self) -> Result<(), Failed>
        ensures same { to_come (S.rest self.new.source) self.new.page
            ≡ to_come (S.rest self.old.source) self.old.page }
        ensures at_hand { OnOk result (IsAtHand (S.rest self.new.source) self.new.page) }
        ensures reader { self.new.reader ≡ self.old.reader }
        ensures cause { CountsFailures result (S.failures self.old.source)
            (S.failures self.new.source) }
    {
        for _ in 0..LONGEST {
            if self.ask()? {
                return Ok(());
            }
        }
        Ok(())
    }

    /// Asks the source once for bytes, unless an entry is at hand. Returns true if one was, or if
    /// the source has ended; false if it gave bytes.
    fn ask(&mut self) -> Result<bool, Failed>
        ensures same { to_come (S.rest self.new.source) self.new.page
            ≡ to_come (S.rest self.old.source) self.old.page }
        ensures asked { IfOk result (λ is_done.
            IsAsked is_done (S.rest self.new.source) self.old.page self.new.page) }
        ensures reader { self.new.reader ≡ self.old.reader }
        ensures cause { CountsFailures result (S.failures self.old.source)
            (S.failures self.new.source) }
    {
        if self.page.bytes().len() >= LONGEST {
            return Ok(true);
        }
        let count = self.fill_once()?;
        Ok(count == 0)
    }

    /// Asks the source once for bytes. Returns how many it gave.
    #[tactic(auto, using(crate::proofs::Fronts::given, crate::proofs::Fronts::gave_none))]
    fn fill_once(&mut self) -> Result<usize, Failed>
        requires { length self.old.page < 121 }
        ensures same { to_come (S.rest self.new.source) self.new.page
            ≡ to_come (S.rest self.old.source) self.old.page }
        ensures grows { IfOk result (λ n. length self.new.page ≡ length self.old.page + n) }
        ensures ended { result ≡ Ok 0 → has_ended (S.rest self.new.source) }
        ensures reader { self.new.reader ≡ self.old.reader }
        ensures cause { CountsFailures result (S.failures self.old.source)
            (S.failures self.new.source) }
    {
        let mut buffer = [0; PAGE];
        let count = self.source.read(&mut buffer)?;
        self.page.add(&buffer[..count]);
        Ok(count)
    }
}

/// The entry at the front of a page.
fn read_front<A: Allocator>(
    reader: &mut EntryReader,
    page: &mut UnreadBytes<A>,
) -> Result<Entry, Stop>
    ensures { IsReadOf reader.old result page.old page.new reader.new }
{
    flight_records_laws::pieces_are_read();
    let bytes = page.bytes();
    let before = bytes.len();
    match reader.next(bytes) {
        Ok((entry, rest)) => {
            let used = before - rest.len();
            page.pass(used);
            Ok(entry)
        }
        Err(Unread::Short) if before == 0 => Err(Stop::End),
        Err(Unread::Short) => Err(Stop::Torn),
        Err(Unread::Invalid) => Err(Stop::Invalid),
    }
}
