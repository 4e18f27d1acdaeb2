//! Laws of a node's pace, each the contract of a function that does nothing.
ghost use Rattle.pace.specs.Laws.{EachPortIsGiven, EndsAgreeOnCalls, TicksGoOn, HoldsEnd};

/// Whatever the fields hold, as after damage to them: each port that takes frames is due one once
/// the repetition time is over, a tick is left out only for the sake of a lease and for 2
/// milliseconds at most, and no hold ends later than a hold from now would. So damage costs only
/// time, and a proof that counts sweeps need not look at a pace. That no rest is longer than 2
/// milliseconds is a clause of `TurnPace::rest`.
pub fn damage_costs_time_alone()
    ensures given { EachPortIsGiven }
    ensures ticks { TicksGoOn }
    ensures holds { HoldsEnd }
{}

/// A neighbour hears the frame that completes a call as a call, if it has counted the same number
/// of equal frames in a row and the frame came there soon after the one before it. A neighbour that
/// missed one of them, or got it late, may not hear the call. It may hear a call in other frames,
/// too.
pub fn both_ends_agree_on_the_call()
    ensures { EndsAgreeOnCalls }
{}
