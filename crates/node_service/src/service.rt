//! What a node does with its clients in a turn.
ghost use Rattle.std.specs.Prelude.{◌≡◌, ◌&&◌, ◌==◌, ◌∷◌, [], ℕ, not, true};
ghost use Rattle.slab.specs.Slab.{get};
ghost use Rattle.lock_desk.specs.Desk.{after_leave, is_ticket};
ghost use Rattle.node_core.specs.Step.{ticked};
ghost use Rattle.node_core.specs.View.{site_in, state_of};
ghost use Rattle.node_service.specs.Answers.{answer_text};
ghost use Rattle.node_service.specs.Clients.{AreConnected};
ghost use Rattle.node_connections.specs.Clients.{is_connected, IsReported, Reports};
ghost use Rattle.node_service.specs.Deeds.{IsLeaveOfGone, Leaves};
ghost use Rattle.node_connections.specs.Ends.{EndsByWrite};
ghost use Rattle.node_connections.specs.Lives.{AllGoOut, AllRead, IsReadAt, LiveOn, OthersStay};
ghost use Rattle.node_service.specs.Noting.{after_all, Did, DidAct};
ghost use Rattle.node_connections.specs.Heard.{NothingHeard};
ghost use Rattle.node_service.specs.Pieces.{GivePieces, GivesPiece};
ghost use Rattle.node_connections.specs.Said.{IsLineAlone, IsServed, IsServedAlone, NothingSaid};
ghost use Rattle.node_service.specs.Serving.{Serves};

use crate::answer::{ANSWER, answer};
use crate::notes::Notes;
use lock_desk::{ClientLine, DeskAct};
use node_connections::clients::{Clients, PIECE, PLACES};
use node_connections::{Pipe, ReadAnswer};
use node_core::{Node, Ticked};
use std::alloc::Allocator;

/// Has a ticket leave, if it waits or borrows.
fn leave<A: Allocator>(node: &mut Node<A>, notes: &mut Notes<A>, ticket: u16)
    ensures state { state_of node.new ≡ record (state_of node.old) {
      desk = after_leave ticket (state_of node.old).desk;
    } }
    ensures site { site_in node.new ≡ site_in node.old }
    ensures noted { notes.new ≡ after_all (Leaves ticket ∷ []) notes.old }
{
    let _known = node.leave(ticket);
    notes.leaves(ticket);
}

/// Closes a client, and has its ticket leave.
fn dismiss<P: Pipe, A: Allocator + Copy>(
    node: &mut Node<A>,
    notes: &mut Notes<A>,
    clients: &mut Clients<P, A>,
    ticket: u16,
)
    ensures node { Did (IsLeaveOfGone (is_connected clients.new))
        node.old node.new notes.old notes.new }
    ensures connected { AreConnected clients.old node.old → AreConnected clients.new node.new }
    ensures closed { (t : ℕ) → is_connected clients.new t
        ≡ (is_connected clients.old t && not (t == ticket)) }
    ensures others { OthersStay ticket clients.old clients.new }
    ensures answers { clients.new.answers ≡ clients.old.answers }
{
    // The prover needs to know that the desk is in range: a borrower does not wait.
    let _known_ranges = node.ranges();
    clients.close(ticket);
    leave(node, notes, ticket);
}

/// Answers a client, or closes it if there is no room for the answer.
fn reply<P: Pipe, A: Allocator + Copy>(
    node: &mut Node<A>,
    notes: &mut Notes<A>,
    clients: &mut Clients<P, A>,
    ticket: u16,
    text: &[u8],
)
    ensures node { Did (IsLeaveOfGone (is_connected clients.new))
        node.old node.new notes.old notes.new }
    ensures connected { AreConnected clients.old node.old → AreConnected clients.new node.new }
    ensures reported { Reports text.now ticket clients.old clients.new }
    ensures lives { LiveOn P.gave P.took P.counts clients.old clients.new }
    ensures heard { NothingHeard P.gave clients.old clients.new }
{
    if !clients.say(ticket, text) {
        dismiss(node, notes, clients, ticket);
    }
}

/// Reads each client once, and serves its lines. Returns whether some client may have more: one gave
/// a whole piece.
pub fn serve_all<P: Pipe, A: Allocator + Copy>(
    node: &mut Node<A>,
    notes: &mut Notes<A>,
    clients: &mut Clients<P, A>,
) -> bool
    // A client whose read says that it is gone is no longer connected.
    ensures lives { LiveOn P.gave P.took P.counts clients.old clients.new }
    // A client that is no longer connected was gone, as a read said, or had no room for an answer.
    ensures serves { Serves P.took (IsServed P.gave P.took P.counts clients.old clients.new)
        node.old node.new notes.old notes.new clients.old clients.new }
    // Each client that is still there was read.
    ensures reads { AllRead P.gave P.took P.counts clients.old clients.new }
    // Each gave at most a piece. Some may have more if one gave a whole piece, and only then.
    ensures pieces { GivePieces P.gave P.took P.counts result clients.old clients.new }
{
    if clients.is_empty() {
        return false;
    }
    let mut has_more = false;
    for ticket in 0..PLACES as u16 {
        if clients.contains(ticket) {
            has_more |= serve(node, notes, clients, ticket);
        }
    }
    has_more
}

/// Reads a client once, and serves its lines. Returns whether it may have more. A client that closed
/// is closed here too, after one more write of what waits for it; so is one whose read failed.
fn serve<P: Pipe, A: Allocator + Copy>(
    node: &mut Node<A>,
    notes: &mut Notes<A>,
    clients: &mut Clients<P, A>,
    ticket: u16,
) -> bool
    ensures lives { LiveOn P.gave P.took P.counts clients.old clients.new }
    ensures serves { Serves P.took (IsServed P.gave P.took P.counts clients.old clients.new)
        node.old node.new notes.old notes.new clients.old clients.new }
    // It was read, if it is still there.
    ensures reads { IsReadAt P.gave P.took P.counts (get clients.old.table ticket)
        (get clients.new.table ticket) }
    // It gave at most a piece, and may have more if that was a whole one, and only then.
    ensures piece { GivesPiece P.gave P.took P.counts result (get clients.old.table ticket)
        (get clients.new.table ticket) }
    ensures others { OthersStay ticket clients.old clients.new }
{
    let mut bytes = [0; PIECE];
    match clients.read(ticket, &mut bytes) {
        ReadAnswer::Got(count) => {
            serve_bytes(node, notes, clients, ticket, &bytes[..count]);
            count == PIECE
        }
        ReadAnswer::Later => false,
        ReadAnswer::Closed => {
            let _written = clients.write(ticket);
            dismiss(node, notes, clients, ticket);
            false
        }
        ReadAnswer::Failed => {
            dismiss(node, notes, clients, ticket);
            false
        }
    }
}

/// Serves the lines that end in these bytes of a client.
fn serve_bytes<P: Pipe, A: Allocator + Copy>(
    node: &mut Node<A>,
    notes: &mut Notes<A>,
    clients: &mut Clients<P, A>,
    ticket: u16,
    bytes: &[u8],
)
    ensures lives { LiveOn P.gave P.took P.counts clients.old clients.new }
    // The client is served by its lines, and no other is. It is closed only for lack of room.
    ensures serves { Serves P.took
        (IsServedAlone P.gave P.took P.counts clients.old clients.new ticket bytes.now)
        node.old node.new notes.old notes.new clients.old clients.new }
    ensures others { OthersStay ticket clients.old clients.new }
{
    for byte in bytes {
        if let Some(line) = clients.push(ticket, *byte) {
            serve_line(node, notes, clients, ticket, line);
        }
    }
}

/// Serves one line of a client.
fn serve_line<P: Pipe, A: Allocator + Copy>(
    node: &mut Node<A>,
    notes: &mut Notes<A>,
    clients: &mut Clients<P, A>,
    ticket: u16,
    line: ClientLine,
)
    ensures lives { LiveOn P.gave P.took P.counts clients.old clients.new }
    // The client is answered, and no other is.
    ensures serves { Serves P.took
        (IsLineAlone ticket line (answer_text (site_in node.old) ticket line (state_of node.old)))
        node.old node.new notes.old notes.new clients.old clients.new }
    ensures reported { Reports (answer_text (site_in node.old) ticket line (state_of node.old))
        ticket clients.old clients.new }
    ensures heard { NothingHeard P.gave clients.old clients.new }
{
    let mut text = [0; ANSWER];
    let count = answer(node, ticket, line, &mut text);
    notes.line(ticket, line);
    if count > 0 {
        reply(node, notes, clients, ticket, &text[..count]);
    }
}

/// Has each ticket leave that waits or borrows and is no connected client's.
pub fn leave_absent<P: Pipe, A: Allocator + Copy>(
    node: &mut Node<A>,
    notes: &mut Notes<A>,
    clients: &Clients<P, A>,
)
    ensures node { Did (IsLeaveOfGone (is_connected clients.now))
        node.old node.new notes.old notes.new }
    ensures connected { AreConnected clients.now node.new }
{
    leave_lent(node, notes, clients);
    leave_waiting(node, notes, clients);
}

/// Has the borrower leave, if it is no connected client.
fn leave_lent<P: Pipe, A: Allocator + Copy>(
    node: &mut Node<A>,
    notes: &mut Notes<A>,
    clients: &Clients<P, A>,
)
    ensures node { Did (IsLeaveOfGone (is_connected clients.now))
        node.old node.new notes.old notes.new }
    ensures connected { (t : ℕ) → is_ticket (state_of node.new).desk.lent t ≡ true
        → is_connected clients.now t ≡ true }
{
    // The prover needs to know that the desk is in range: a borrower does not wait.
    let _known_ranges = node.ranges();
    let Some(ticket) = node.lent() else {
        return;
    };
    if !clients.contains(ticket) {
        leave(node, notes, ticket);
    }
}

/// Has each ticket leave that waits and is no connected client's.
fn leave_waiting<P: Pipe, A: Allocator + Copy>(
    node: &mut Node<A>,
    notes: &mut Notes<A>,
    clients: &Clients<P, A>,
)
    requires { (t : ℕ) → is_ticket (state_of node.old).desk.lent t ≡ true
        → is_connected clients.now t ≡ true }
    ensures node { Did (IsLeaveOfGone (is_connected clients.now))
        node.old node.new notes.old notes.new }
    ensures connected { AreConnected clients.now node.new }
{
    let mut place = 0;
    while place < node.waiting() {
        let ticket = node.tickets()[place];
        if clients.contains(ticket) {
            place += 1;
        } else {
            leave(node, notes, ticket);
        }
    }
}

/// Ticks the node once. The client whose loan the tick began or ended hears of it, or is closed if
/// there is no room for that answer.
pub fn tick<P: Pipe, A: Allocator + Copy>(
    node: &mut Node<A>,
    notes: &mut Notes<A>,
    clients: &mut Clients<P, A>,
) -> Ticked
    // One tick, and then nothing but the leave of a client that is closed.
    ensures node { DidAct (IsLeaveOfGone (is_connected clients.new)) result
        node.old node.new notes.old notes.new }
    ensures reported { IsReported result.act clients.old clients.new }
    ensures lives { LiveOn P.gave P.took P.counts clients.old clients.new }
    ensures connected { AreConnected clients.old node.old → AreConnected clients.new node.new }
{
    let ticked = node.tick();
    notes.ticks();
    match ticked.act {
        DeskAct::Granted(ticket) => reply(node, notes, clients, ticket, b"granted\n"),
        DeskAct::Lost(ticket) => reply(node, notes, clients, ticket, b"lost\n"),
        DeskAct::Quiet => {}
    }
    ticked
}

/// Writes once to each client for which answers wait, and closes each for which the write fails.
pub fn write_all<P: Pipe, A: Allocator + Copy>(
    node: &mut Node<A>,
    notes: &mut Notes<A>,
    clients: &mut Clients<P, A>,
)
    ensures node { Did (IsLeaveOfGone (is_connected clients.new))
        node.old node.new notes.old notes.new }
    ensures connected { AreConnected clients.old node.old → AreConnected clients.new node.new }
    // A client to which a write fails is no longer connected.
    ensures lives { LiveOn P.gave P.took P.counts clients.old clients.new }
    ensures nothing { NothingSaid P.took clients.old clients.new }
    ensures heard { NothingHeard P.gave clients.old clients.new }
    ensures out { AllGoOut P.counts clients.old clients.new }
    // A client that is no longer connected had a write that failed.
    ensures ends { (t : ℕ) → EndsByWrite P.gave P.took P.counts
        (get clients.old.table t) (get clients.new.table t) }
{
    if clients.is_empty() {
        return;
    }
    for ticket in 0..PLACES as u16 {
        if !clients.write(ticket) {
            dismiss(node, notes, clients, ticket);
        }
    }
}
