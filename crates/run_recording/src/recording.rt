//! What is kept of a run for its picture.
ghost use Rattle.std.specs.Prelude.{◌≡◌, ◌+◌, ◌^◌, ◌<◌, ◌≤◌, ℕ, List, [], ◌∷◌, ◌++◌, Some, IfOk};
ghost use Rattle.std.specs.Prelude.{true, length, is_some, option_map, if◌then◌else◌, IfSome};
ghost use Rattle.world.specs.judge.configuration.ConfigurationView.{world_of};
ghost use Rattle.run_recording.specs.Filmed.{room_of, IsReeled};
ghost use Rattle.world.specs.judge.Judging.{counted_up_to};
ghost use Rattle.world.specs.judge.JudgeView.{AreSweepsSeen};
ghost use Rattle.world.specs.SimulatedText.{events_of, simulated_start, said_events};
ghost use Rattle.run_recording.specs.declared.change.Change.TheVariants.{All};
ghost use Rattle.run_recording.specs.declared.column.Column.{Column};
ghost use Rattle.run_recording.specs.Columns.{column_of, Follows, IsCovered};
ghost use Rattle.run_recording.specs.Strips.{Shows};
ghost use Rattle.run_recording.specs.Recordings.{shown_if, RecordsNext, IsRecorded};
ghost use Rattle.run_recording.specs.Recordings.{IsReading};
ghost use Rattle.run_recording.specs.RecordingSteps.{EndsThere, IsDamageWhere, ReadsAll, ReadsNext};
ghost use Rattle.run_recording.specs.RecordingSteps.{AddsStillSeen, IsMomentSeen, IsStillSeen};
ghost use Rattle.run_recording.specs.RecordingSteps.{KeepsStillSeen};
ghost use Rattle.run_recording.specs.Laned.{IsLaned, KeepsWorld, lane_moments, limit_of};
ghost use Rattle.run_recording.specs.Held.{is_held};
ghost use Rattle.layers.specs.LayersOf.{AreLayersOf};

use crate::change::Change;
use crate::column::Counts;
use crate::lanes::Lanes;
use crate::mark::Mark;
use crate::reel::Reel;
use crate::sight::NodesSight;
use crate::still::{MOST_NODES, MOST_WAYS, Still};
use crate::strip::Strip;
use crate::under_way::under_way_of;
use crate::window::Window;
use byte_streams::Source;
use layers::Layers;
use std::alloc::{Allocator, Global};
use std::marker::Model;
use topology::Net;
use world::simulation::{LONGEST_TEXT, SimFault};
use world::{Configuration, Event, EventReader, Judge, TextLine, World};

/// The most bytes of one read.
const PIECE: usize = 8192;

/// How many pairs of links are spare at the start of a run: that many more edges may join.
const SPARE_PAIRS: u16 = 8;

/// What came before the first moment that is shown.
#[derive(Clone, Copy, Debug)]
pub struct Before {
    /// How many events have led to it.
    pub events: u64,
    /// How many sweeps have ended before it.
    pub sweeps: u64,
}

/// What is kept of a run.
#[derive(Drop)]
pub struct Recording<A: Allocator + Copy = Global> {
    judge: Judge<A>,
    /// What is seen of the nodes now.
    sight: NodesSight,
    reader: EventReader,
    strip: Strip<A>,
    /// The stills of a film, if one is made.
    reel: Option<Reel<A>>,
    /// What has settled, column by column, if that is asked for.
    lanes: Option<Lanes<A>>,
    window: Window,
    /// The sweeps that have ended since the start.
    ended: u64,
    /// The events that were read.
    events: u64,
    /// The lines that spell no event.
    unread: u64,
    before: Before,
}

impl<A: Allocator + Copy> Model for Recording<A> {
    ghost use Rattle.std.specs.Prelude.{◌≡◌, ◌+◌, ◌≤◌, true};
    ghost use Rattle.world.specs.judge.configuration.ConfigurationView.{world_of};
    ghost use Rattle.run_recording.specs.Recordings.{RecordingView};
    ghost use Rattle.run_recording.specs.Columns.{IsCovered};
    ghost use Rattle.run_recording.specs.Held.{is_held};
    ghost use Rattle.run_recording.specs.Laned.{lane_moments};
    ghost use Rattle.run_recording.specs.Seen.{IsSightOf};

    ghost Value = { RecordingView };

    ghost view = { λ r. record {
      judge = r.judge;
      reader = r.reader;
      strip = r.strip;
      reel = r.reel;
      lanes = r.lanes;
      window = r.window;
      ended = r.ended;
      events = r.events;
      unread = r.unread;
      before = r.before;
    } };

    ghost invariant = { λ r. (r.strip.moments ≤ r.events + 1)
        × (lane_moments r.lanes ≤ r.events + 1)
        × IsSightOf (world_of r.judge.configuration) r.sight
        × (is_held r.window r.ended ≡ true → IsCovered r.strip.columns r.sight.marks) };
}

/// Reads an events text, lets its events happen on a network, from fresh nodes, empty links and 8
/// spare pairs of links, and keeps what is seen at the moments that the window holds, in at most
/// the given number of columns.
///
/// # Errors
/// The first that happens: [`SimFault::Memory`], before anything is read; [`SimFault::Read`] if
/// the source failed; [`SimFault::Long`] if it gave more bytes than [`LONGEST_TEXT`].
pub fn record<A: Allocator + Copy, N: Allocator + Copy, R: Source>(
    alloc: A,
    net: &Net<N>,
    source: &mut R,
    columns: usize,
    window: Window,
) -> Result<Recording<A>, SimFault>
    requires { 0 < columns }
    ensures recorded { (bytes : List ℕ) → R.rest source.old ≡ Some bytes
        → IfOk result (IsRecorded (simulated_start net.now) (events_of bytes)) }
    ensures window { IfOk result (λ r. r.window ≡ window) }
    ensures columns { IfOk result (λ r. r.strip.limit ≡ columns) }
{
    recorded(alloc, net, source, columns, None, None, window)
}

/// Does the same as [`record`], and also keeps what has settled at the last moment of each full
/// column.
///
/// # Errors
/// Those of [`record`].
pub fn record_layers<A: Allocator + Copy, N: Allocator + Copy, R: Source>(
    alloc: A,
    net: &Net<N>,
    source: &mut R,
    columns: usize,
    window: Window,
) -> Result<Recording<A>, SimFault>
    requires { 0 < columns }
    ensures recorded { (bytes : List ℕ) → R.rest source.old ≡ Some bytes
        → IfOk result (IsRecorded (simulated_start net.now) (events_of bytes)) }
    ensures window { IfOk result (λ r. r.window ≡ window) }
    ensures columns { IfOk result (λ r. r.strip.limit ≡ columns) }
    ensures lanes { IfOk result (λ r. limit_of r.lanes ≡ Some columns) }
{
    let lanes = Lanes::new(alloc, columns)?;
    recorded(alloc, net, source, columns, None, Some(lanes), window)
}

/// Does the same as [`record`] for a film: it also keeps at most `stills` stills after the first
/// moment that is shown.
///
/// # Errors
/// Those of [`record`].
pub fn record_film<A: Allocator + Copy, N: Allocator + Copy, R: Source>(
    alloc: A,
    net: &Net<N>,
    source: &mut R,
    stills: usize,
    window: Window,
) -> Result<Recording<A>, SimFault>
    requires { 2 ≤ stills }
    ensures recorded { (bytes : List ℕ) → R.rest source.old ≡ Some bytes
        → IfOk result (IsRecorded (simulated_start net.now) (events_of bytes)) }
    ensures window { IfOk result (λ r. r.window ≡ window) }
    ensures stills { IfOk result (λ r. room_of r.reel ≡ Some stills) }
{
    let reel = Reel::new(alloc, stills)?;
    recorded(alloc, net, source, 1, Some(reel), None, window)
}

/// Does the same, with this reel and these lanes, which show nothing yet.
fn recorded<A: Allocator + Copy, N: Allocator + Copy, R: Source>(
    alloc: A,
    net: &Net<N>,
    source: &mut R,
    columns: usize,
    reel: Option<Reel<A>>,
    lanes: Option<Lanes<A>>,
    window: Window,
) -> Result<Recording<A>, SimFault>
    requires columns { 0 < columns }
    requires reel { IsReeled reel [] }
    requires lanes { IsLaned lanes [] }
    requires moments { lane_moments lanes ≡ 0 }
    ensures recorded { (bytes : List ℕ) → R.rest source.old ≡ Some bytes
        → IfOk result (IsRecorded (simulated_start net.now) (events_of bytes)) }
    ensures window { IfOk result (λ r. r.window ≡ window) }
    ensures columns { IfOk result (λ r. r.strip.limit ≡ columns) }
    ensures reel { IfOk result (λ r. room_of r.reel ≡ room_of reel) }
    ensures lanes { IfOk result (λ r. limit_of r.lanes ≡ limit_of lanes) }
{
    let world = World::with_spares(alloc, net, SPARE_PAIRS)?;
    let strip = Strip::new(alloc, columns)?;
    let mut recording = Recording::new(world, strip, reel, lanes, window);
    recording.read_all(source)?;
    recording.last_line();
    Ok(recording)
}

/// When a still is taken.
#[derive(Clone, Copy)]
pub struct Take {
    /// The last event; `None` at the start.
    pub event: Option<Event>,
    /// How many events there were.
    pub events: u64,
    /// Whether the last one was accepted damage.
    pub damaged: bool,
    /// The sweeps since the last damage.
    pub sweeps: u64,
}

/// The still of a film, made from what is seen and how many frames are under way.
fn still_of(sight: &NodesSight, under_way: [u16; MOST_WAYS], take: Take) -> Still
    ensures { IsStillSeen sight.now under_way take result }
{
    Still {
        looks: sight.looks,
        places: sight.places,
        edges: sight.edges,
        under_way,
        events: take.events,
        event: take.event,
        sweeps: take.sweeps,
        damaged: take.damaged,
        privileged: sight.privileged,
        lending: sight.lending,
    }
}

/// Keeps a still, if a film is made and the window holds the moment.
#[inline(always)]
fn keep_still<A: Allocator + Copy>(
    reel: &mut Option<Reel<A>>,
    window: Window,
    ended: u64,
    sight: &NodesSight,
    configuration: &Configuration<A>,
    take: &Take,
)
    ensures shows { KeepsStillSeen sight.now (world_of configuration.now) take.now window ended
        reel.old reel.new }
    ensures limit { room_of reel.new ≡ room_of reel.old }
{
    if let Some(reel) = reel {
        if window.holds(ended) {
            push_still(reel, sight, configuration, *take);
        }
    }
}

/// Adds the still of a moment to a reel.
#[inline(never)]
fn push_still<A: Allocator + Copy>(
    reel: &mut Reel<A>,
    sight: &NodesSight,
    configuration: &Configuration<A>,
    take: Take,
)
    ensures shows { AddsStillSeen sight.now (world_of configuration.now) take reel.old reel.new }
    ensures limit { reel.new.limit ≡ reel.old.limit }
{
    reel.push(&still_of(sight, under_way_of(configuration), take));
}

/// Keeps what has settled, if that is asked for and the window holds the moment. It looks at the
/// network only if the moment is the last one of its column.
#[inline(always)]
fn keep_layers<A: Allocator + Copy>(
    lanes: &mut Option<Lanes<A>>,
    window: Window,
    ended: u64,
    configuration: &Configuration<A>,
)
    requires { lane_moments lanes.old < 2 ^ 62 }
    ensures keeps { KeepsWorld (world_of configuration.now) window ended lanes.old lanes.new }
    ensures limit { limit_of lanes.new ≡ limit_of lanes.old }
    ensures moments { lane_moments lanes.new ≤ lane_moments lanes.old + 1 }
{
    if let Some(lanes) = lanes {
        if window.holds(ended) {
            lanes.push(configuration);
        }
    }
}

/// What is seen, apart from the marks, at a moment at which the sweeps since the last damage went from
/// `before` to `after`.
#[inline(always)]
fn counts_of<A: Allocator + Copy>(
    sight: &NodesSight,
    net: &Net<A>,
    damaged: bool,
    before: u64,
    after: u64,
) -> Counts
    ensures { IsMomentSeen sight.now net.now damaged before after (column_of sight.now.marks result) }
{
    let ends = before < after;
    Counts {
        privileged: sight.privileged,
        lending: sight.lending,
        sweeps: u64::from(ends),
        damaged,
        sharp: ends && after == u64::from(net.sharp_bound()),
        bound: ends && after == u64::from(net.bound()),
    }
}

/// Whether an event is accepted damage, given whether it is accepted.
fn is_damage(event: &Event, accepted: bool) -> bool
    ensures { IsDamageWhere event.now accepted result }
{
    match event {
        Event::Damage(_) => accepted,
        _ => false,
    }
}

impl<A: Allocator + Copy> Recording<A> {
    /// The recording at the start of a run.
    fn new(
        world: World<A>,
        mut strip: Strip<A>,
        mut reel: Option<Reel<A>>,
        mut lanes: Option<Lanes<A>>,
        window: Window,
    ) -> Recording<A>
        requires strip { Shows strip [] }
        requires reel { IsReeled reel [] }
        requires lanes { IsLaned lanes [] }
        requires moments { lane_moments lanes ≡ 0 }
        ensures recorded { IsRecorded (world_of world) [] result }
        ensures reading { IsReading (world_of world) [] result }
        ensures window { result.window ≡ window }
        ensures limit { result.strip.limit ≡ strip.limit }
        ensures reel { room_of result.reel ≡ room_of reel }
        ensures lanes { limit_of result.lanes ≡ limit_of lanes }
        ensures events { result.events ≡ 0 }
    {
        let judge = Judge::new(world);
        let sight = NodesSight::of(judge.configuration());
        let start = counts_of(&sight, judge.configuration().net(), false, 0, 0);
        keep(&mut strip, window, 0, &sight.marks, Change::All, &start);
        let take = Take {
            event: None,
            events: 0,
            damaged: false,
            sweeps: 0,
        };
        keep_still(&mut reel, window, 0, &sight, judge.configuration(), &take);
        keep_layers(&mut lanes, window, 0, judge.configuration());
        Recording {
            judge,
            sight,
            reader: EventReader::new(),
            strip,
            reel,
            lanes,
            window,
            ended: 0,
            events: 0,
            unread: 0,
            before: Before {
                events: 0,
                sweeps: 0,
            },
        }
    }

    /// Reads the text to its end.
    fn read_all<R: Source>(&mut self, source: &mut R) -> Result<(), SimFault>
        requires { self.old.events ≡ 0 }
        ensures text { ReadsAll self.old (R.rest source.old) result self.new }
        ensures window { self.new.window ≡ self.old.window }
        ensures limit { self.new.strip.limit ≡ self.old.strip.limit }
        ensures reel { room_of self.new.reel ≡ room_of self.old.reel }
        ensures lanes { limit_of self.new.lanes ≡ limit_of self.old.lanes }
        ensures events { self.new.events < 2 ^ 61 }
    {
        byte_streams::laws::reading_in_pieces();
        let mut piece = [0; PIECE];
        let mut left = LONGEST_TEXT;
        loop {
            let Ok(count) = source.read(&mut piece) else {
                return Err(SimFault::Read);
            };
            if count == 0 {
                return Ok(());
            }
            self.take(&piece[..count.min(left)]);
            if count > left {
                return Err(SimFault::Long);
            }
            left -= count;
        }
    }

    /// Takes a piece of the text.
    fn take(&mut self, piece: &[u8])
        requires { self.old.events + length piece.now < 2 ^ 61 }
        ensures text { ReadsNext self.old piece.now self.new }
        ensures window { self.new.window ≡ self.old.window }
        ensures limit { self.new.strip.limit ≡ self.old.strip.limit }
        ensures reel { room_of self.new.reel ≡ room_of self.old.reel }
        ensures lanes { limit_of self.new.lanes ≡ limit_of self.old.lanes }
        ensures events { self.new.events ≤ self.old.events + length piece.now }
    {
        let mut at = 0;
        while at < piece.len() {
            if let Some((event, used)) = self.reader.take_usual(&piece[at..]) {
                at += used;
                self.line(TextLine::Said(event));
                continue;
            }
            let taken = self.reader.take(&piece[at..]);
            at += taken.used;
            let Some(line) = taken.line else {
                return;
            };
            self.rare_line(line);
        }
    }

    /// Takes the last line of the text, if no newline ended it.
    fn last_line(&mut self)
        requires { self.old.events < 2 ^ 61 }
        ensures text { EndsThere self.old self.new }
        ensures window { self.new.window ≡ self.old.window }
        ensures limit { self.new.strip.limit ≡ self.old.strip.limit }
        ensures reel { room_of self.new.reel ≡ room_of self.old.reel }
        ensures lanes { limit_of self.new.lanes ≡ limit_of self.old.lanes }
    {
        if let Some(line) = self.reader.last() {
            self.rare_line(line);
        }
    }

    /// Takes the next line as [`Recording::line`] does, for the rare kinds of lines.
    #[inline(never)]
    fn rare_line(&mut self, line: TextLine)
        requires { self.old.events < 2 ^ 61 }
        ensures records { RecordsNext self.old (said_events (line ∷ [])) self.new }
        ensures reader { self.new.reader ≡ self.old.reader }
        ensures window { self.new.window ≡ self.old.window }
        ensures limit { self.new.strip.limit ≡ self.old.strip.limit }
        ensures reel { room_of self.new.reel ≡ room_of self.old.reel }
        ensures lanes { limit_of self.new.lanes ≡ limit_of self.old.lanes }
        ensures events { self.new.events ≤ self.old.events + 1 }
    {
        self.line(line);
    }

    /// Takes the next line, and lets its event happen.
    // A separate call would write the event to memory for each line, and read it again.
    #[inline(always)]
    fn line(&mut self, line: TextLine)
        requires { self.old.events < 2 ^ 61 }
        ensures records { RecordsNext self.old (said_events (line ∷ [])) self.new }
        ensures reader { self.new.reader ≡ self.old.reader }
        ensures window { self.new.window ≡ self.old.window }
        ensures limit { self.new.strip.limit ≡ self.old.strip.limit }
        ensures reel { room_of self.new.reel ≡ room_of self.old.reel }
        ensures lanes { limit_of self.new.lanes ≡ limit_of self.old.lanes }
        ensures events { self.new.events ≤ self.old.events + 1 }
    {
        match line {
            TextLine::Passed => {}
            TextLine::Unread => self.unread = self.unread.saturating_add(1),
            TextLine::Said(event) => self.happens(&event),
        }
    }

    /// Lets an event happen, and keeps the moment after it.
    #[inline(always)]
    fn happens(&mut self, event: &Event)
        requires { self.old.events < 2 ^ 61 }
        ensures records { RecordsNext self.old (event.now ∷ []) self.new }
        ensures reader { self.new.reader ≡ self.old.reader }
        ensures window { self.new.window ≡ self.old.window }
        ensures limit { self.new.strip.limit ≡ self.old.strip.limit }
        ensures reel { room_of self.new.reel ≡ room_of self.old.reel }
        ensures lanes { limit_of self.new.lanes ≡ limit_of self.old.lanes }
        ensures events { self.new.events ≡ self.old.events + 1 }
    {
        let before = self.judge.sweeps();
        let accepted = self.judge.step(event).is_ok();
        let change = self.sight.follow(self.judge.configuration(), event);
        let sweeps = self.judge.sweeps();
        let damaged = is_damage(event, accepted);
        let counts = counts_of(
            &self.sight,
            self.judge.configuration().net(),
            damaged,
            before,
            sweeps,
        );
        self.events += 1;
        let now = Before {
            events: self.events,
            sweeps: self.ended,
        };
        begin_at(&mut self.before, self.strip.columns().is_empty(), now);
        let change = change_where(self.window.holds(self.ended), change);
        self.ended = self.ended.saturating_add(counts.sweeps);
        keep(
            &mut self.strip,
            self.window,
            self.ended,
            &self.sight.marks,
            change,
            &counts,
        );
        let take = Take {
            event: Some(*event),
            events: self.events,
            damaged,
            sweeps,
        };
        keep_still(
            &mut self.reel,
            self.window,
            self.ended,
            &self.sight,
            self.judge.configuration(),
            &take,
        );
        keep_layers(
            &mut self.lanes,
            self.window,
            self.ended,
            self.judge.configuration(),
        );
    }

    /// The columns, and how many moments each shows.
    pub fn strip(&self) -> &Strip<A>
        ensures { result.now ≡ self.now.strip }
    {
        &self.strip
    }

    /// The stills of the film, if one is made.
    pub fn reel(&self) -> Option<&Reel<A>>
        ensures { option_map (λ reel. reel.now) result ≡ self.now.reel }
    {
        self.reel.as_ref()
    }

    /// What has settled at the last moment of each full column, if that is asked for.
    pub fn lanes(&self) -> Option<&Lanes<A>>
        ensures { option_map (λ lanes. lanes.now) result ≡ self.now.lanes }
    {
        self.lanes.as_ref()
    }

    /// What has settled at the end, if the window holds that moment.
    pub fn settled_at_end(&self) -> Option<Layers>
        ensures none { is_some result ≡ is_held self.now.window self.now.ended }
        ensures layers { IfSome result (AreLayersOf (world_of self.now.judge.configuration)) }
    {
        if self.window.holds(self.ended) {
            Some(Layers::of(self.judge.configuration()))
        } else {
            None
        }
    }

    /// The nodes and links at the end.
    pub fn configuration(&self) -> &Configuration<A>
        ensures { result.now ≡ self.now.judge.configuration }
    {
        self.judge.configuration()
    }

    /// The sweeps since the last accepted damage, at the end.
    pub fn sweeps(&self) -> u64
        ensures count { result ≡ self.now.judge.sweeps }
        // Whatever run was recorded, there are exactly this many sweeps after its last damage.
        ensures seen { AreSweepsSeen self.now.judge result }
    {
        self.judge.sweeps()
    }

    /// The events that were read, including refused ones.
    pub fn events(&self) -> u64
        ensures { result ≡ self.now.events }
    {
        self.events
    }

    /// The lines that were refused: those that spell no event, and those whose event was refused.
    pub fn refused(&self) -> u64
        ensures { result ≡ counted_up_to (self.now.unread + self.now.judge.refused) }
    {
        self.unread.saturating_add(self.judge.refused())
    }

    /// What came before the first moment that is shown. If none is shown, this says nothing.
    pub fn before(&self) -> Before
        ensures { result ≡ self.now.before }
    {
        self.before
    }
}

/// Replaces `before` by `now`, if nothing is shown yet.
#[inline(always)]
fn begin_at(before: &mut Before, is_first: bool, now: Before)
    ensures { before.new ≡ (if is_first then now else before.old) }
{
    if is_first {
        *before = now;
    }
}

/// The change since the last moment that was kept: the given one if that is the moment before, else
/// [`Change::All`].
#[inline(always)]
fn change_where(was_kept: bool, change: Change) -> Change
    ensures { result ≡ (if was_kept then change else All) }
{
    if was_kept { change } else { Change::All }
}

/// Keeps a moment, if the window holds it.
#[inline(always)]
fn keep<A: Allocator + Copy>(
    strip: &mut Strip<A>,
    window: Window,
    ended: u64,
    marks: &[Mark; MOST_NODES],
    change: Change,
    counts: &Counts,
)
    requires few { strip.old.moments < 2 ^ 62 }
    requires follows { Follows strip.old.columns change marks.now }
    ensures shows { (moments : List Column) → Shows strip.old moments
        → Shows strip.new (moments ++ shown_if window ended (column_of marks.now counts.now)) }
    ensures covers { is_held window ended ≡ true → IsCovered strip.new.columns marks.now }
    ensures limit { strip.new.limit ≡ strip.old.limit }
    ensures moments { strip.new.moments ≤ strip.old.moments + 1 }
{
    if window.holds(ended) {
        strip.push(marks, change, counts);
    }
}
