//! The laws of state files.
ghost use Rattle.node_state_file.specs.Laws.{SpellingsAreRead};
ghost use Rattle.node_state_file.specs.Laws.{WhatIsReadIsSpelled, WhatIsReadIsWrittenAgain};

/// What was encoded is read again, with an empty desk: each spelling of a state in range, in either
/// layout and with any other nodes as neighbours, is read as that state, re-matched to the
/// neighbours that the node has now. Whoever saves a state and starts with it relies on this.
pub fn spellings_are_read()
    ensures { SpellingsAreRead }
{
    topology::laws::limits();
}

/// Nothing else is read: bytes that are accepted are the spelling of a state in range, and what is
/// read is that state, re-matched. A file in the layout that is written, with the neighbours that
/// the node has now, is read as a state whose spelling is that very file. So one state has one
/// spelling, and a file that a fault has changed is invalid or is that of a different state. This
/// holds for files in that layout and with those neighbours, before the fault and after it.
pub fn what_is_read_is_spelled()
    ensures spelled { WhatIsReadIsSpelled }
    ensures again { WhatIsReadIsWrittenAgain }
{}
