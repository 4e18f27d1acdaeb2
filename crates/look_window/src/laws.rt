//! Laws of what is shown, each the contract of a function that does nothing.
ghost use Rattle.look_window.specs.Laws.{LooksSayTheStatus, MovesAreCounted};
ghost use Rattle.look_window.specs.NodeStatus.{NodesWriteTheirLines};

/// What a node writes about itself is the text of a status line, so that `status` shows what it wrote.
pub fn nodes_write_their_lines()
    ensures { NodesWriteTheirLines }
{}

/// A looker is shown first what the node's status line says at the same moment.
pub fn a_look_says_the_status()
    ensures { LooksSayTheStatus }
{
    nodes_write_their_lines();
}

/// A reader of how often the token came round relies on this: if one machine, whose value is in
/// range, is looked at before a tick and after it, one move is counted if it moved in that tick,
/// and none if it did not. If the parent changes, another machine is looked at from then on; this
/// law does not speak of that tick.
pub fn a_move_is_counted()
    ensures { MovesAreCounted }
{}
