//! What a node does after a turn that saved its state.
ghost use Rattle.std.specs.Prelude.{◌≡◌, ◌&&◌, not};
ghost use Rattle.node_keeping.specs.AfterSave.{after_save, looks_for_stop, is_lost};

use crate::sight::FileSight;

/// What became of the file by which a node is stopped.
#[derive(Clone, Copy)]
pub enum StopSight {
    /// It is not there, or the system does not say.
    Absent,
    /// It was there, and is removed.
    Removed,
    /// It is there, and cannot be removed: it is a folder, or its folder may not be changed.
    Stays,
}

/// What a node sees after a turn that saved its state.
#[derive(Clone, Copy)]
pub struct Sights {
    /// Its lock file.
    pub place: FileSight,
    /// Its stop file.
    pub stop: StopSight,
    /// Whether it is asked to end in another way: by the end of its standard input, if it must end
    /// with that, or by a signal that is held back.
    pub is_asked: bool,
    /// Its socket for neighbours.
    pub links: FileSight,
    /// Its socket for clients.
    pub clients: FileSight,
    /// Its socket for whoever looks.
    pub looks: FileSight,
}

/// Which sockets of a node are made again, since their names lead elsewhere.
#[derive(Clone, Copy, PartialEq, Eq)]
pub struct Lost {
    /// The socket for neighbours.
    pub links: bool,
    /// The socket for clients.
    pub clients: bool,
    /// The socket for whoever looks.
    pub looks: bool,
}

/// What a node does after a turn that saved its state.
#[derive(Clone, Copy, PartialEq, Eq)]
pub enum AfterSave {
    /// It ends at once, and touches no file: its lock file is gone or another's, as in a folder
    /// that was removed or made again, so another network may lend at the same time.
    Displaced,
    /// It removes its sockets, and ends with a fault: if it were started again, it would be ended
    /// again.
    StopStays,
    /// It removes its sockets, and ends without a fault.
    Stop,
    /// It runs on, and makes these sockets again.
    GoOn(Lost),
}

/// Whether the stop file is looked for: in a folder that is another node's, it is not this node's.
pub fn looks_for_stop(place: FileSight) -> bool
    ensures { result ≡ looks_for_stop place }
{
    place != FileSight::NotOwn
}

/// What a node does after a turn that saved its state, by what it sees.
pub fn after_save(sights: Sights) -> AfterSave
    ensures { result ≡ after_save sights }
{
    match sights.stop {
        _ if !looks_for_stop(sights.place) => AfterSave::Displaced,
        StopSight::Stays => AfterSave::StopStays,
        StopSight::Removed => AfterSave::Stop,
        StopSight::Absent if sights.is_asked => AfterSave::Stop,
        StopSight::Absent => AfterSave::GoOn(Lost {
            links: is_lost(sights.links),
            clients: is_lost(sights.clients),
            looks: is_lost(sights.looks),
        }),
    }
}

/// Whether a socket has to be made again.
fn is_lost(sight: FileSight) -> bool
    ensures { result ≡ is_lost sight }
{
    sight == FileSight::NotOwn
}

/// A complaint that is made when its cause begins, and not again while that lasts.
#[derive(Clone, Copy, Drop)]
pub struct Complaint {
    lasts: bool,
}

impl Complaint {
    ghost use Rattle.std.specs.Prelude.{false};

    /// There is nothing to complain about.
    pub fn new() -> Complaint
        ensures { result.lasts ≡ false }
    {
        Complaint { lasts: false }
    }

    /// Takes note of whether the cause is there now, and returns whether to complain.
    pub fn is_due(&mut self, is_so: bool) -> bool
        ensures lasts { self.new.lasts ≡ is_so }
        ensures due { result ≡ (is_so && not self.old.lasts) }
    {
        let began = is_so && !self.lasts;
        self.lasts = is_so;
        began
    }
}
