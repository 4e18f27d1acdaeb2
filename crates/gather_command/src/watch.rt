//! What is watched of each node while its record is read: its turns and its loans.
ghost use Rattle.std.specs.Prelude.{◌≡◌, ◌<◌, IfOk, option_map, length, map};
ghost use Rattle.gather_command.specs.Delays.{since};
ghost use Rattle.gather_command.specs.Watch.{unwatched, watched_of, with_state, with_tick};
ghost use Rattle.gather_command.specs.Watch.{with_lent, loan_to, with_loan, ended_loan};
ghost use Rattle.gather_command.specs.Watch.{longer, with_instant, length_of, one_again, watched_again};
ghost use Rattle.record_pages.specs.flight_records.Again.{same_node};

use crate::summary::Lasted;
use std::alloc::{AllocError, Global};
use std::marker::Model;

/// A loan of a node.
#[derive(Clone, Copy)]
struct Loan {
    /// The ticket that it is to.
    ticket: u16,
    /// The instant at which it began.
    since: u64,
}

/// What is watched of one node.
#[derive(Clone, Copy)]
struct WatchedNode {
    /// Whether its whole state was noted.
    is_known: bool,
    /// The instant of its last tick.
    ticked: Option<u64>,
    /// Its loan, if it lends to anybody.
    loan: Option<Loan>,
}

/// What is watched of all nodes, in microseconds of their clocks.
#[derive(Drop)]
pub struct RecordWatch {
    nodes: Vec<WatchedNode>,
    /// The longest time from one tick of a node to its next one.
    longest_turn: u64,
    /// How many loans began.
    loans: u64,
    /// The longest loan that ended.
    longest_loan: Option<Lasted>,
}

impl Model for RecordWatch {
    ghost use Rattle.gather_command.specs.Watch.{WatchView};

    ghost Value = { WatchView };

    ghost view = { λ w. record
        { nodes = w.nodes.items; longest_turn = w.longest_turn; loans = w.loans; longest_loan = w.longest_loan } };
}

/// The time since an instant; 0 if there was none.
pub fn since(before: Option<u64>, instant: u64) -> u64
    ensures { result ≡ since before instant }
{
    match before {
        Some(before) => instant.saturating_sub(before),
        None => 0,
    }
}

/// The loan to this ticket since this instant; none if there is no ticket.
fn loan_to(lent: Option<u16>, instant: u64) -> Option<Loan>
    ensures { result ≡ loan_to lent instant }
{
    match lent {
        Some(ticket) => Some(Loan {
            ticket,
            since: instant,
        }),
        None => None,
    }
}

/// The number of loans, with one more if the lock is lent.
fn with_loan(lent: Option<u16>, loans: u64) -> u64
    ensures { result ≡ with_loan lent loans }
{
    if lent.is_some() {
        loans.saturating_add(1)
    } else {
        loans
    }
}

/// Whether a loan is to this ticket, or both are none.
fn is_to(loan: Option<Loan>, lent: Option<u16>) -> bool
    ensures { result ≡ same_node (option_map (λ l. l.ticket) loan) lent }
{
    match (loan, lent) {
        (Some(loan), Some(ticket)) => loan.ticket == ticket,
        (None, None) => true,
        _ => false,
    }
}

/// A node's loan, if there is one, which ends at this instant.
fn ended_loan(node: u16, loan: Option<Loan>, instant: u64) -> Option<Lasted>
    ensures { result ≡ ended_loan node loan instant }
{
    match loan {
        Some(loan) => Some(Lasted {
            node,
            ticket: loan.ticket,
            time: instant.saturating_sub(loan.since),
        }),
        None => None,
    }
}

/// The longer of two loans, either of which may be none.
fn longer(first: Option<Lasted>, more: Option<Lasted>) -> Option<Lasted>
    ensures { result ≡ longer first more }
{
    match (first, more) {
        (Some(first), Some(more)) if first.time < more.time => Some(more),
        (Some(first), _) => Some(first),
        (None, more) => more,
    }
}

/// A node of which all is forgotten except whether its whole state was noted.
fn one_again(node: WatchedNode) -> WatchedNode
    ensures { result ≡ one_again node }
{
    WatchedNode {
        is_known: node.is_known,
        ticked: None,
        loan: None,
    }
}

/// Forgets all of each node except whether its whole state was noted.
fn all_again(nodes: &mut [WatchedNode])
    ensures { nodes.new ≡ map one_again nodes.old }
{
    for place in 0..nodes.len() {
        nodes[place] = one_again(nodes[place]);
    }
}

impl RecordWatch {
    /// This many nodes, of which nothing is known yet. All memory is reserved here.
    pub fn new(alloc: Global, nodes: u16) -> Result<RecordWatch, AllocError>
        ensures { IfOk result (λ w. w ≡ unwatched nodes) }
    {
        let unknown = WatchedNode {
            is_known: false,
            ticked: None,
            loan: None,
        };
        Ok(RecordWatch {
            nodes: vec![in alloc; unknown; usize::from(nodes)]?,
            longest_turn: 0,
            loans: 0,
            longest_loan: None,
        })
    }

    /// Whether a node's whole state was noted.
    pub fn is_known(&self, node: u16) -> bool
        requires { node < length self.now.nodes }
        ensures { result ≡ (watched_of self.now node).is_known }
    {
        self.nodes[usize::from(node)].is_known
    }

    /// A node's whole state was noted.
    pub fn noted_whole(&mut self, node: u16)
        requires { node < length self.old.nodes }
        ensures { self.new ≡ with_state self.old node }
    {
        self.nodes[usize::from(node)].is_known = true;
    }

    /// A node ticked at an instant.
    pub fn ticked(&mut self, node: u16, instant: u64)
        requires { node < length self.old.nodes }
        ensures { self.new ≡ with_tick self.old node instant }
    {
        let place = usize::from(node);
        let before = self.nodes[place].ticked;
        self.longest_turn = self.longest_turn.max(since(before, instant));
        self.nodes[place].ticked = Some(instant);
    }

    /// At an instant a node lends to this ticket, or to nobody.
    pub fn lends(&mut self, node: u16, lent: Option<u16>, instant: u64)
        requires { node < length self.old.nodes }
        ensures { self.new ≡ with_lent self.old node lent instant }
    {
        let place = usize::from(node);
        let before = self.nodes[place].loan;
        if is_to(before, lent) {
            return;
        }
        self.longest_loan = longer(self.longest_loan, ended_loan(node, before, instant));
        self.nodes[place].loan = loan_to(lent, instant);
        self.loans = with_loan(lent, self.loans);
    }

    /// Forgets all except which nodes' whole states were noted.
    pub fn begins_again(&mut self)
        ensures { self.new ≡ watched_again self.old }
    {
        all_again(self.nodes.as_mut_slice());
        self.longest_turn = 0;
        self.loans = 0;
        self.longest_loan = None;
    }

    /// The longest time from one tick of a node to its next one.
    pub fn longest_turn(&self) -> u64
        ensures { result ≡ self.now.longest_turn }
    {
        self.longest_turn
    }

    /// How many loans began, and the longest one that ended, if one did.
    pub fn loans(&self) -> (u64, Option<Lasted>)
        ensures { result ≡ (self.now.loans, self.now.longest_loan) }
    {
        (self.loans, self.longest_loan)
    }
}

/// The least and the greatest of some instants.
#[derive(Clone, Copy)]
pub struct Span {
    least: u64,
    greatest: u64,
}

/// The span of these instants and one instant more.
pub fn with_instant(span: Option<Span>, instant: u64) -> Option<Span>
    ensures { result ≡ with_instant span instant }
{
    Some(match span {
        Some(span) => Span {
            least: span.least.min(instant),
            greatest: span.greatest.max(instant),
        },
        None => Span {
            least: instant,
            greatest: instant,
        },
    })
}

/// How long a span is; 0 if there is none.
pub fn length_of(span: Option<Span>) -> u64
    ensures { result ≡ length_of span }
{
    match span {
        Some(span) => span.greatest.saturating_sub(span.least),
        None => 0,
    }
}
