//! Laws of these times, each the contract of a function that does nothing.
ghost use Rattle.recovery_times.specs.Laws.{ShortLoansCostNothing, SlowerIsNoSooner};

/// A loan that lasts no longer than the time after which a frame is repeated plus the time for
/// which it is on its way leaves the window as it is; and a machine that is faster in none of the
/// premises has no shorter window. So a premise that is rounded up still gives a bound.
pub fn windows()
    ensures short { ShortLoansCostNothing }
    ensures slower { SlowerIsNoSooner }
{}
