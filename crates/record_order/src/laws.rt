//! What holds for orders: the law is the contract of a function that does nothing.
ghost use Rattle.record_order.specs.Laws.{OneOrderOrNone};

/// A reader that chose ready steps until none was ready has an order of all steps, each after what
/// it needs, or there is no such order. No command relies on this: `gather` goes on even if no step
/// is ready.
pub fn one_order_or_none()
    ensures { OneOrderOrNone }
{}
