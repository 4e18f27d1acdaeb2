//! Laws of a node's log, each the contract of a function that does nothing.
ghost use Rattle.node_log.specs.Laws.{AtMostTwentyInASecond, SaysNothingIfOff};

/// However much happens, a node says at most 20 lines in a second of its clock, as long as that
/// does not go back; a log that is off says none. Whoever keeps the lines relies on it.
pub fn lines_are_few()
    ensures few { AtMostTwentyInASecond }
    ensures off { SaysNothingIfOff }
{}
