//! How long each still is shown.
ghost use Rattle.std.specs.Prelude.{◌≡◌, ◌+◌, ◌-◌, ◌≤◌, max};
ghost use Rattle.run_film.specs.Beats.{beats_at, film_of, joins_in, last_of};
ghost use Rattle.std.specs.List.{list_any};
ghost use Rattle.topology.specs.Network.{are_joined};
ghost use Rattle.run_film.specs.Tracks.{milliseconds};

use run_recording::{Look, MOST_EDGES, MOST_FRAMED, MOST_NODES, MOST_WAYS, NO_EDGE, Place, Still};
use topology::Net;

/// For how many beats the first still is held, besides its own.
const OPENING: usize = 10;

/// For how many seconds the last still is held.
const HELD: u32 = 3;

/// The most beats of a film, except those that hold the last still.
const MOST_BEATS: u16 = 600;

/// The most changes of nodes from beat to beat, so that a film stays below 1 MB.
const MOST_CHANGES: u16 = 10_000;

/// The most bytes of what changes from beat to beat, so that a film with many edges stays below it too.
const MOST_BYTES: usize = 700_000;

/// How many beats a film has, and how long it plays.
#[derive(Clone, Copy, Debug)]
pub struct FilmPace {
    /// The beats, except those that hold the first still and the last.
    beats: u16,
    /// For how many beats the last still is held, besides its own.
    closing: u16,
    /// For how many seconds the film plays, before it holds the last still.
    seconds: u16,
}

impl FilmPace {
    /// The pace of a film of `seconds` seconds, 2 to 600: ten beats a second, but fewer for long films and large
    /// networks.
    pub fn of(net: &Net, seconds: u16) -> FilmPace
        ensures seconds { result.seconds ≡ seconds }
        ensures some { 10 ≤ result.beats }
        ensures few { result.beats ≤ 600 }
    {
        let most = (MOST_CHANGES / net.nodes().max(1)).min(beats_within(net));
        let all = seconds.saturating_mul(10).min(MOST_BEATS).min(most).max(20);
        let held = u32::from(all) * HELD / u32::from(seconds.max(1));
        FilmPace {
            beats: all - 10,
            closing: held.max(1) as u16,
            seconds,
        }
    }

    /// The most stills that it has room for after the first.
    pub fn most(self) -> usize
        ensures some { 2 ≤ result }
        ensures most { result ≡ max self.beats 3 - 1 }
    {
        usize::from(self.beats.max(3) - 1)
    }

    /// All beats of the film.
    pub fn all(self) -> usize
        ensures { result ≡ self.beats + (10 + self.closing) }
    {
        usize::from(self.beats) + (OPENING + usize::from(self.closing))
    }

    /// For how many thousandths of a second it plays, including the time for which it holds the last still.
    pub fn milliseconds(self) -> u32
        ensures { result ≡ milliseconds self }
    {
        u32::from(self.seconds) * 1000 + 3000
    }
}

/// How many beats have room in `MOST_BYTES`: in each beat a node has about 24 bytes, an edge 9, and the frames
/// that wait on it 16.
fn beats_within(net: &Net) -> u16 {
    let nodes = usize::from(net.nodes()).saturating_mul(24);
    let edge = if net.nodes() <= MOST_FRAMED { 25 } else { 9 };
    let edges = net.edges().len().saturating_mul(edge);
    (MOST_BYTES / nodes.saturating_add(edges).max(1)).min(usize::from(MOST_BEATS)) as u16
}

/// The stills of a film in their order, and how many beats there are for them.
#[derive(Clone, Copy)]
pub struct Shown<'a> {
    opening: &'a Still,
    later: &'a [Still],
    pace: FilmPace,
}

/// What is seen if there is no moment.
pub const EMPTY: Still = Still {
    looks: [Look::NOTHING; MOST_NODES],
    places: [Place::NOWHERE; MOST_NODES],
    edges: [NO_EDGE; MOST_EDGES],
    under_way: [0; MOST_WAYS],
    events: 0,
    event: None,
    sweeps: 0,
    damaged: false,
    privileged: 0,
    lending: 0,
};

impl<'a> Shown<'a> {
    /// These stills at this pace.
    pub fn new(opening: &'a Still, later: &'a [Still], pace: FilmPace) -> Shown<'a>
        ensures { film_of result
            ≡ record { opening = opening.now; later = later.now; pace = pace } }
    {
        Shown {
            opening,
            later,
            pace,
        }
    }

    /// The pace.
    pub fn pace(self) -> FilmPace
        ensures { result ≡ self.entry.pace }
    {
        self.pace
    }

    /// The first still.
    pub fn opening(self) -> &'a Still
        ensures { result.now ≡ self.entry.opening.now }
    {
        self.opening
    }

    /// The stills after the first.
    pub fn later(self) -> &'a [Still]
        ensures { result.now ≡ self.entry.later.now }
    {
        self.later
    }

    /// The last still.
    pub fn last(self) -> &'a Still
        ensures { result.now ≡ last_of (film_of self.entry) }
    {
        match self.later {
            [.., last] => last,
            [] => self.opening,
        }
    }

    /// Whether an edge joins two nodes in some still.
    pub fn joins(self, v: u16, w: u16) -> bool
        ensures { result ≡ joins_in (film_of self.entry) v w }
    {
        self.opening.joins(v, w) || any_joins(self.later, v, w)
    }

    /// For how many beats the still at a place is shown; 0 is the first. All stills have the same number, or one
    /// more, and the first and the last are held longer.
    pub fn beats_at(self, place: usize) -> usize
        ensures { result ≡ beats_at (film_of self.entry) place }
    {
        let count = self.later.len().saturating_add(1);
        let beats = usize::from(self.pace.beats);
        let own = beats / count + usize::from(place < beats % count);
        let first = if place == 0 { OPENING } else { 0 };
        let last = if place == self.later.len() {
            usize::from(self.pace.closing)
        } else {
            0
        };
        own + (first + last)
    }
}

/// Whether an edge joins two nodes in some of these stills.
fn any_joins(stills: &[Still], v: u16, w: u16) -> bool
    ensures { result ≡ list_any (λ still. are_joined still.edges v w) stills.now }
{
    stills.iter().any(|still| still.joins(v, w))
}
