//! The laws of the copying ring, each the contract of a function that does nothing. A proof that
//! needs one calls it and cites its clauses.
ghost use Rattle.k_state.specs.Laws.{AgeGoesOn, AgeOfStart, AgesDiffer, AgesStay, AgesTurnGood};
ghost use Rattle.k_state.specs.Laws.{FallingHasFront, FreshHasFront, FrontStaysOrTurnsGood};
ghost use Rattle.k_state.specs.Laws.{GoodHasFront, GoodOutlastsRuns, GoodStays, MovesFromFirst};
ghost use Rattle.k_state.specs.Laws.{OneItemIsPrivileged, ParallelIsRun, PrivilegePasses};
ghost use Rattle.k_state.specs.Laws.{RingStays, RunTurnsGood, RunsJoin, SomeItemIsPrivileged};
ghost use Rattle.k_state.specs.Laws.{SomeValueIsFresh, StepIsRun, TurnsGood};

/// A good ring stays good, whatever changes and head moves follow. Links need it to stay stable,
/// the token ring to keep its one token.
pub fn stays_good()
    ensures stays { GoodStays }
    ensures stays_in_runs { GoodOutlastsRuns }
    ensures front { GoodHasFront }
{}

/// A head value that stands nowhere else: it is in front, stays in front until the head moves, and
/// then the ring is good. Among the values that the head holds up to the last of as many moves as
/// there were items, one is such a value. A link needs the moment itself: no frame carries that
/// number. It counts moves along its events from the first one on, so it needs them counted like
/// that here too.
pub fn fresh_value()
    ensures below { RingStays }
    ensures front { FreshHasFront }
    ensures front_stays_or_turns_good { FrontStaysOrTurnsGood }
    ensures some_value { SomeValueIsFresh }
    ensures first_move { MovesFromFirst }
{}

/// A ring of at most as many items as there are values is good after as many head moves as it had
/// items; over moments of time, and over a run.
pub fn turns_good()
    ensures turns_good { TurnsGood }
    ensures run_turns_good { RunTurnsGood }
{}

/// Many machines that copy at once are the same as changes one after the other, from right to left.
/// So one call that moves several machines is a run, and runs join.
pub fn parallel_copies()
    ensures is_run { ParallelIsRun }
    ensures step_is_run { StepIsRun }
    ensures join { RunsJoin }
{}

/// Privilege: some item always has it. If there are two values or more, only one item of a good
/// ring has it, and between two head moves of a good ring whose items stay in their places it comes
/// to each item.
pub fn privilege()
    ensures some { SomeItemIsPrivileged }
    ensures one { OneItemIsPrivileged }
    ensures passes { PrivilegePasses }
{}

/// Ages since a moment: how many moves lead from the head's value then to an item's. Ages that fall
/// along a ring go on to do so while the head's own age and its further moves add up to less than
/// the modulus. If ages fall, the items that equal the head are in front, and its next move makes
/// the ring good, however few its moves were. Proofs about fewer moves than items need this.
pub fn ages()
    ensures start { AgeOfStart }
    ensures apart { AgesDiffer }
    ensures next { AgeGoesOn }
    ensures stay { AgesStay }
    ensures front { FallingHasFront }
    ensures turn_good { AgesTurnGood }
{}
