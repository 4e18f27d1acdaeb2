//! What holds for woven journals: each law is the contract of a function that does nothing.
ghost use Rattle.weaving.specs.Laws.{OneWovenList, WovenIsRun};

/// If the nodes' journals match, the woven list is a run: no event is refused, no send meets a full
/// link, no take an empty one, and it ends as the journals do. So matching journals are enough to
/// know that nodes side by side did a run.
pub fn weave()
    ensures { WovenIsRun }
{
    topology::laws::joined();
}

/// Journals have only one woven list: stamps, and nodes if stamps are equal, leave no choice. So
/// every way to weave them gives the same list.
pub fn one_list()
    ensures { OneWovenList }
{}
