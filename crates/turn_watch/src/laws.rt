//! Laws of what is noted of turns, each the contract of a function that does nothing.
ghost use Rattle.turn_watch.specs.Laws.{LongestIsTheGreatest, NoLateGapIsMissed};

/// Whoever reads the longest gap of a node relies on it: no gap since the start was longer, and one
/// was as long, if there was any.
pub fn no_gap_is_missed()
    ensures longest { LongestIsTheGreatest }
    // No gap that ended in the last minute is longer than what is said of that minute.
    ensures lately { NoLateGapIsMissed }
{}
