//! What holds of the entries that are woven, and of their events: each law is the contract of a
//! function that does nothing.
ghost use Rattle.gather_command.specs.Laws.{WeavingIsFaithful, StretchesAreFaithful};

use record_gathering::laws as record_gathering_laws;

/// None of the events is refused in the world in which weaving began. After the events of an entry,
/// its node lends the lock as was seen. Each entry of each node is woven once, in its order. Anyone
/// who trusts a recording relies on this law.
pub fn weaving_is_faithful()
    ensures { WeavingIsFaithful }
{
    record_gathering_laws::accepted_is_enough();
    record_gathering_laws::runs();
}

/// A list that begins in the middle is set up as the world stood then, if the network is a valid
/// one and the same nodes are joined once the edges are set. A simulation refuses none of its
/// events, and no entry is missing. Anyone who replays a stretch of a recording relies on this law.
pub fn stretches_are_faithful()
    ensures { StretchesAreFaithful }
{
    record_gathering_laws::accepted_is_enough();
    record_gathering_laws::facts_join();
    record_gathering_laws::set_ups_are_reached();
    record_gathering_laws::runs();
    record_gathering_laws::start();
    record_gathering_laws::in_range();
}
