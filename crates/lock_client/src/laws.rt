//! Laws of a client, over whatever happens to it. Each is the contract of a function that does
//! nothing.
ghost use Rattle.lock_client.specs.Laws.{HeldThroughoutLaw, StartsAtMostOnce, GivesBackOnce};
ghost use Rattle.lock_client.specs.Laws.{EndsByItself, EndsWhatLostItsLock, SignalsAreHeeded};
ghost use Rattle.lock_client.specs.GuardLaws.{GivesBackRightly, AsksAtMostOnce, KillsAfterAsking};
ghost use Rattle.lock_client.specs.GuardLaws.{LeavesAlone, GuardEnds};
ghost use Rattle.lock_client.specs.Lines.{AnswersAreRead};

/// Unless the command may run on without the lock, its own status is returned exactly if the node
/// said nothing and stayed connected, and the guard lived, from `granted` to the command's end, and
/// the node's next word, in time, was `released`. Users who run a build, a migration or a backup
/// under the lock rely on it.
pub fn a_command_that_is_done_held_the_lock()
    ensures { HeldThroughoutLaw }
{}

/// The command is started at most once, and `unlock` is written at most once: at most one lock is
/// taken, and at most one released.
pub fn one_lock_is_taken()
    ensures starts { StartsAtMostOnce }
    ensures gives_back { GivesBackOnce }
{}

/// If the node says anything or is gone, or the guard is gone, while a command runs that may not
/// run on without the lock, this command is asked to end, at most once, and the client, if it ends,
/// says that the lock was lost: status 122, or the one that was chosen. This law does not say that
/// the command then ends. A command that may run on is never asked. Users whose command must not
/// run without the lock rely on it.
pub fn what_lost_its_lock_is_ended()
    ensures { EndsWhatLostItsLock }
{}

/// A signal that is held back ends a client only before its command is started. Of all signals,
/// only SIGTERM is passed on to a command that runs under the lock.
pub fn signals_are_heeded()
    ensures { SignalsAreHeeded }
{}

/// Before the lock is granted, a client ends when its time is up, when nobody serves, or when a
/// signal comes. Once it has released the lock, it ends at the latest with the node's next word,
/// when the node is gone, or when its time is up. In between, its command's end leads on: the
/// client then releases the lock, or ends if the lock was lost. No clause says that any of these
/// comes. Whoever gives a client a limit relies on this law.
pub fn a_client_ends()
    ensures { EndsByItself }
{}

/// Each answer's line is read back as that answer.
pub fn answers_are_read()
    ensures { AnswersAreRead }
{}

/// A guard releases the lock only if its client says that it is done, or is gone without having
/// announced a command, or four looks in a row found no process of the command. So if `lock` is
/// killed after it announced a command, nobody else gets the lock from this guard as long as its
/// looks find a process of the command.
pub fn a_guard_holds_the_lock()
    ensures { GivesBackRightly }
{}

/// A guard asks the command to end at most once, and kills it only after that. With `--keep` it
/// does neither. If a look shows that a signal came to the whole group, while it still searches for
/// the command, it does not ask after that. Once a command is announced, it ends when its client is
/// done.
pub fn a_guard_is_gentle()
    ensures once { AsksAtMostOnce }
    ensures kills { KillsAfterAsking }
    ensures alone { LeavesAlone }
    ensures ends { GuardEnds }
{}
