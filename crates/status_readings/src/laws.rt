//! Laws of verdicts, each the contract of a function that does nothing.
ghost use Rattle.status_readings.specs.Laws.{OneLoanIsNotCritical, FineIsTrue};

/// If exactly one node lends in at least one of the three readings, the verdict is never critical.
/// So it wakes nobody at night if two nodes lend in only one or two of the readings, and exactly
/// one in another.
pub fn one_loan_is_not_critical()
    ensures { OneLoanIsNotCritical }
{}

/// If all is said to be well, each answer of each reading is there and true of the node that it
/// names: it has the distance and the parent that the network gives this node. And in each reading
/// at most one answer says that its node lends.
pub fn fine_is_true()
    ensures { FineIsTrue }
{}
