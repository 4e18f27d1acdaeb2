//! Why a call at a desk is refused.
use thiserror::Error;

/// Why a ticket that asks for the lock is refused, in the order in which this is checked.
#[derive(Clone, Copy, Debug, PartialEq, Eq, Error)]
pub enum AskFault {
    /// As many tickets wait as a desk has places.
    #[error("Full")]
    Full,
    /// The ticket waits already, or the lock is lent to it.
    #[error("Twice")]
    Twice,
}

/// Why a ticket that leaves is refused: it does not wait, nor is the lock lent to it.
#[derive(Clone, Copy, Debug, PartialEq, Eq, Error)]
#[error("Stranger")]
pub struct Stranger;

/// Why a write is refused. A loan: its ticket waits, or what is left of it does not fit. Tickets
/// that wait: there are more than 64, one appears twice, or one of them borrows.
#[derive(Clone, Copy, Debug, PartialEq, Eq, Error)]
#[error("OutOfRange")]
pub struct OutOfRange;
