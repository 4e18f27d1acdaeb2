//! Where the deeds of a turn are noted, for whoever keeps a record of the node.
ghost use Rattle.std.specs.Prelude.{◌≡◌, ◌≤◌, IfOk, [], ◌∷◌, not, false};
ghost use Rattle.flight_records.specs.declared.entry.Deed.TheVariants.{Ticks};
ghost use Rattle.node_service.specs.Deeds.{Asks, Leaves, Sends, Takes};
ghost use Rattle.node_service.specs.Noting.{after_all, after_note, deeds_of_line, emptied, sends_if};

use flight_records::Deed;
use lock_desk::ClientLine;
use std::alloc::{AllocError, Allocator, Global};
use std::marker::Model;
use topology::Frame;

/// The most deeds that are noted: far more than a usual turn has, and this many fit into the page
/// of a record.
const ROOM: usize = 1024;

/// The deeds of the last turn, if there is room for them. Without room none are noted, which costs
/// nothing.
#[derive(Drop)]
pub struct Notes<A: Allocator = Global> {
    deeds: Option<Vec<Deed, A>>,
    /// There was no room for one of the deeds.
    is_torn: bool,
}

impl<A: Allocator> Model for Notes<A> {
    ghost use Rattle.std.specs.Prelude.{[], vec_capacity};
    ghost use Rattle.node_service.specs.NotesView.{NotesView, or_else};

    ghost Value = { NotesView };

    ghost view = { λ n. record
        { deeds = or_else [] (λ v. v.items) n.deeds; room = or_else 0 vec_capacity n.deeds; is_torn = n.is_torn } };
}

impl<A: Allocator> Notes<A> {
    /// Notes without room for any deed.
    pub fn none() -> Notes<A>
        ensures { (result.deeds ≡ []) × (result.room ≡ 0) × (result.is_torn ≡ false) }
    {
        Notes {
            deeds: None,
            is_torn: false,
        }
    }

    /// Notes with room for 1024 deeds. `AllocError` comes only if memory is refused.
    pub fn with_room(alloc: A) -> Result<Notes<A>, AllocError>
        ensures { IfOk result (λ notes. (notes.deeds ≡ []) × (notes.room ≡ 1024)
            × (notes.is_torn ≡ false)) }
    {
        Ok(Notes {
            deeds: Some(Vec::with_capacity(alloc, ROOM)?),
            is_torn: false,
        })
    }

    /// The deeds that were noted, in their order.
    pub fn deeds(&self) -> &[Deed]
        ensures { result.now ≡ self.now.deeds }
    {
        match &self.deeds {
            Some(deeds) => deeds.as_slice(),
            None => &[],
        }
    }

    /// Whether no deed is missing.
    pub fn has_all(&self) -> bool
        ensures { result ≡ not self.now.is_torn }
    {
        !self.is_torn
    }

    /// Forgets all that was noted, as at the start of a turn.
    pub fn begin(&mut self)
        ensures { self.new ≡ emptied self.old }
    {
        if let Some(deeds) = &mut self.deeds {
            deeds.clear();
        }
        self.is_torn = false;
    }

    /// Notes a deed after the others, if there is room for it.
    fn note(&mut self, deed: Deed)
        ensures { self.new ≡ after_note deed self.old }
    {
        if let Some(deeds) = &mut self.deeds {
            if deeds.len() < deeds.capacity() {
                deeds.push_reserved(deed);
                return;
            }
        }
        self.is_torn = true;
    }

    /// Notes that a frame of a neighbour was taken.
    pub fn takes(&mut self, from: u16, frame: Frame)
        ensures { self.new ≡ after_all (Takes from frame ∷ []) self.old }
    {
        self.note(Deed::Takes { from, frame });
    }

    /// Notes what a line of the client with this ticket does: `lock` asks, `unlock` leaves.
    pub(crate) fn line(&mut self, ticket: u16, line: ClientLine)
        ensures { self.new ≡ after_all (deeds_of_line ticket line) self.old }
    {
        match line {
            ClientLine::Lock => self.note(Deed::Asks { ticket }),
            ClientLine::Unlock => self.leaves(ticket),
            ClientLine::Status | ClientLine::Unknown => {}
        }
    }

    /// Notes that a ticket left.
    pub(crate) fn leaves(&mut self, ticket: u16)
        ensures { self.new ≡ after_all (Leaves ticket ∷ []) self.old }
    {
        self.note(Deed::Leaves { ticket });
    }

    /// Notes a tick.
    pub(crate) fn ticks(&mut self)
        ensures { self.new ≡ after_note Ticks self.old }
    {
        self.note(Deed::Ticks);
    }

    /// Notes that the link to a neighbour accepted a frame, if it did.
    pub fn offers(&mut self, to: u16, frame: &Frame, is_accepted: bool)
        ensures { self.new ≡ after_all (sends_if is_accepted to frame.now) self.old }
    {
        if is_accepted {
            self.note(Deed::Sends { to, frame: *frame });
        }
    }
}
