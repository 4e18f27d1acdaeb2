//! A node's record, in two files of its folder.
ghost use Rattle.std.specs.Prelude.{◌≡◌, ◌≢◌, ◌⊎◌, ◌||◌, IfOk, IsTrue, true, false};
ghost use Rattle.std.specs.Prelude.{◌∷◌, ◌+◌, ◌<◌, [], ℕ, if◌then◌else◌, length, min, not, slice_index_or};
ghost use Rattle.node_recorder.specs.flight_recorder.Recorder.{after_failure, after_write, is_due};
ghost use Rattle.node_recorder.specs.flight_recorder.flight_records.declared.entry.Deed.TheVariants.{Connects, Disconnects};
ghost use Rattle.node_recorder.specs.node_follower.node_core.View.{site_in};
ghost use Rattle.node_recorder.specs.Backlog.{nothing};
ghost use Rattle.node_recorder.specs.node_follower.Following.{FitsNetwork};
ghost use Rattle.node_recorder.specs.Quiet.{is_quiet};
ghost use Rattle.node_recorder.specs.Turns.{Records};
ghost use Rattle.record_files.specs.Noted.{is_linked, link_changes, IsWrittenOrNot, RecordsEach};
ghost use Rattle.record_files.specs.Noted.{HasTurn};
ghost use Rattle.record_files.specs.Files.{file_bytes, AreFirstPages};

use crate::instants::micros_now;
use crate::kept_network::{KeepWords, NotKept, keep_network};
use crate::names::RecordNames;
use crate::pages::first_pages;
use crate::writing::RecordFiles;
use node_connections::Pipe;
use node_connections::port::{NodePort, link_at};
use node_recorder::{Deed, Node, NodeRecorder, is_quiet, network_mark};
use process_parts::{NodeFault, NodeWords, RecordSize};
use std::alloc::AllocError;
use std::fmt::Display;
use std::fs::File;
use std::rt::{Clock, Files};
use topology::Net;

/// The most nodes of a network.
const NODES: usize = 64;

/// The record of a node that runs.
#[derive(Drop)]
pub struct Tape<'a, R> {
    rt: &'a R,
    recorder: NodeRecorder,
    files: RecordFiles,
    /// When the node's clock stood at 0, in microseconds since the start of 1970, UTC.
    start: u64,
    /// Which nodes it was last seen to have a connection with.
    linked: [bool; NODES],
    ghost ids: { length linked ≡ 64 },
}

impl<'a, R: Files<File = File> + Clock + Eprint + AllocGlobal> Tape<'a, R> {
    /// The record of the node of these words, which has been running since its clock stood at 0.
    /// `now` is the time of that clock, in microseconds. The record goes on in the file that was
    /// written last, if that is a record of this node in this network, has room, and is at most 16
    /// MiB long; else in a new file, in place of the other one. All memory for recording is
    /// reserved here. The network's text is kept beside it; no other file is made or changed yet.
    ///
    /// # Errors
    /// If memory runs out, or the network has no such node.
    pub fn open(
        rt: &'a R,
        words: &NodeWords<'_>,
        size: RecordSize,
        net: &Net,
        node: &Node,
        now: u64,
    ) -> Result<Tape<'a, R>, NodeFault>
        ensures { IfOk result (λ tape. AreFirstPages (file_bytes size) tape.recorder.pages) }
    {
        let id = node.id();
        if id >= net.nodes() {
            return Err(NodeFault::NoNode(net.nodes()));
        }
        keep(rt, words, net);
        let names = RecordNames::new(rt.alloc(), words.dir, id)?;
        match first_recorder(rt, &names, size, net, node) {
            Ok(recorder) => Ok(Tape {
                rt,
                recorder,
                files: RecordFiles::new(names),
                start: micros_now(rt).unwrap_or(0).saturating_sub(now),
                linked: [false; NODES],
            }),
            Err(_) => {
                drop(names);
                Err(NodeFault::Memory)
            }
        }
    }

    /// Records a turn of the node, or what it did between two turns. `deeds` are what it did, in order, and
    /// `has_all` says whether none is missing. `ports` are the node's, one for each node by its id. `now` is
    /// when it began, in microseconds of the node's clock. If `must_settle` is true, no deed may wait to be
    /// noted: the node may have other neighbours before its next turn, or end. A record that has stopped
    /// stays as it is.
    pub fn turn_ended<P: Pipe>(
        &mut self,
        node: &Node,
        ports: &[NodePort<P>],
        deeds: &[Deed],
        has_all: bool,
        must_settle: bool,
        now: u64,
    )
        ensures stopped { self.old.recorder.pages.is_stopped ≡ true → self.new ≡ self.old }
        // A page that is due is written, or the record stops.
        ensures written { is_due (is_quiet deeds.now) self.new.recorder.pages ≡ false }
        // After a quiet turn, or if none may wait, no deed waits to be noted.
        ensures settled { self.old.recorder.pages.is_stopped ≡ false
            → IsTrue (is_quiet deeds.now || must_settle) → self.new.recorder.backlog ≡ nothing }
        // The deeds are recorded, and then the connections that began or ended since they were seen last.
        ensures noted { HasTurn self.old.start now self.old.linked deeds.now has_all must_settle
            node.now ports.now self.old.recorder self.new.recorder }
        ensures linked { self.old.recorder.pages.is_stopped ≡ false
            → (id : ℕ) → id < min (length ports.now) 64
            → slice_index_or self.new.linked id false ≡ is_linked ports.now id }
    {
        if self.recorder.pages().is_stopped() {
            return;
        }
        let instant = self.start.saturating_add(now);
        let is_quiet = is_quiet(deeds);
        let may_wait = may_wait(is_quiet, must_settle);
        self.recorder
            .turn_ended(node, deeds, has_all, may_wait, instant);
        self.note_links(node, ports, may_wait, instant);
        self.write_if_due(is_quiet);
    }

    /// Writes the page if it is due after this turn. `is_quiet` says whether the turn was quiet. A record
    /// that has stopped in the turn says so.
    fn write_if_due(&mut self, is_quiet: bool)
        ensures written { is_due is_quiet self.new.recorder.pages ≡ false }
        ensures backlog { self.new.recorder.backlog ≡ self.old.recorder.backlog }
        ensures recorder { IsWrittenOrNot self.old.recorder self.new.recorder }
        ensures linked { self.new.linked ≡ self.old.linked }
    {
        if self.recorder.pages().is_stopped() {
            self.stop(&"a turn has no room in a page");
        } else if self.recorder.pages().is_due(is_quiet) {
            self.write();
        }
    }

    /// Notes the connections that began or ended.
    fn note_links<P: Pipe>(
        &mut self,
        node: &Node,
        ports: &[NodePort<P>],
        may_wait: bool,
        instant: u64,
    )
        ensures files { self.new.files ≡ self.old.files }
        ensures settled { may_wait ≡ false → self.old.recorder.backlog ≡ nothing
            → self.new.recorder.backlog ≡ nothing }
        ensures noted { RecordsEach instant may_wait node.now
            (link_changes (λ id. slice_index_or self.old.linked id false)
            (is_linked ports.now) (min (length ports.now) 64))
            self.old.recorder self.new.recorder }
        ensures linked { (id : ℕ) → id < min (length ports.now) 64
            → slice_index_or self.new.linked id false ≡ is_linked ports.now id }
    {
        let nodes = ports.len().min(NODES);
        for id in 0..nodes {
            let neighbour = id as u16;
            let is_linked = is_linked(ports, neighbour);
            if is_linked != self.linked[id] {
                self.linked[id] = is_linked;
                self.note_link(node, link_deed(neighbour, is_linked), may_wait, instant);
            }
        }
    }

    /// Notes that a connection began or ended.
    fn note_link(&mut self, node: &Node, deed: Deed, may_wait: bool, instant: u64)
        ensures files { (self.new.files ≡ self.old.files) × (self.new.linked ≡ self.old.linked) }
        ensures noted { Records instant (deed ∷ []) true may_wait node.now self.old.recorder
            self.new.recorder }
        ensures settled { may_wait ≡ false → self.old.recorder.backlog ≡ nothing
            → self.new.recorder.backlog ≡ nothing }
    {
        self.recorder
            .turn_ended(node, &[deed], true, may_wait, instant);
    }

    /// Takes note that the node may have other neighbours from now on. If it has, the network's
    /// text is kept again.
    pub fn rewired(&mut self, words: &NodeWords<'_>, net: &Net, node: &Node)
        ensures pages { self.new.recorder.pages ≡ self.old.recorder.pages }
        // If it has, no deed waits, and the network differs in edges alone, the whole state is
        // noted before the next deeds.
        ensures taken { (site_in self.old.recorder.follower).neighbours
            ≢ (site_in node.now).neighbours → self.old.recorder.backlog ≡ nothing
            → FitsNetwork net.now (site_in self.old.recorder.follower)
            → self.new.recorder.is_rewired ≡ true }
    {
        if !self.recorder.knows_neighbours_of(node) {
            self.recorder.rewire(net, node);
            keep(self.rt, words, net);
        }
    }

    /// Writes what was noted and not yet written, as the node ends.
    pub fn end(&mut self)
        ensures stopped { self.old.recorder.pages.is_stopped ≡ true → self.new ≡ self.old }
    {
        if !self.recorder.pages().is_stopped() && !self.recorder.pages().page().is_empty() {
            self.write();
        }
    }

    /// Writes the page to the end of the present file. If that fails, the record stops, and a line
    /// says so.
    fn write(&mut self)
        ensures backlog { self.new.recorder.backlog ≡ self.old.recorder.backlog }
        ensures pages { (self.new.recorder.pages ≡ after_write self.old.recorder.pages)
            ⊎ (self.new.recorder.pages ≡ after_failure self.old.recorder.pages) }
        ensures recorder { IsWrittenOrNot self.old.recorder self.new.recorder }
        ensures linked { self.new.linked ≡ self.old.linked }
    {
        match self.files.append(self.rt, self.recorder.pages()) {
            Ok(()) => {
                if self.recorder.wrote() {
                    self.files.close();
                }
            }
            Err(error) => self.stop(&error),
        }
    }

    /// Stops the record, and says why.
    fn stop<T: Display>(&mut self, why: &T)
        ensures recorder { self.new.recorder
            ≡ record self.old.recorder { pages = after_failure self.old.recorder.pages } }
        ensures linked { self.new.linked ≡ self.old.linked }
    {
        self.recorder.failed();
        self.files.close();
        let path = self.files.names.of(self.recorder.pages().side());
        let _ = eprintln!(self.rt;
            "tokentree: {path}: the record ends, and the node runs on: {why}"
        );
    }
}

/// The recorder of a node that starts, in files of these names. `AllocError` comes only if memory runs out.
fn first_recorder<R: Files + AllocGlobal>(
    rt: &R,
    names: &RecordNames,
    size: RecordSize,
    net: &Net,
    node: &Node,
) -> Result<NodeRecorder, AllocError>
    requires { (site_in node.now).id < net.now.nodes }
    ensures { IfOk result (λ recorder. AreFirstPages (file_bytes size) recorder.pages) }
{
    let pages = first_pages(rt, names, size, network_mark(net), node.id())?;
    NodeRecorder::new(rt.alloc(), net, node, pages)
}

/// Whether a turn's deeds may wait to be noted: not after a quiet turn, and not if they must
/// settle.
fn may_wait(is_quiet: bool, must_settle: bool) -> bool
    ensures { result ≡ not (is_quiet || must_settle) }
{
    !is_quiet && !must_settle
}

/// Whether the connection with a node stands; false if the node has no port.
fn is_linked<P: Pipe>(ports: &[NodePort<P>], id: u16) -> bool
    ensures { result ≡ is_linked ports.now id }
{
    match link_at(ports, id) {
        Some(sight) => sight.is_up,
        None => false,
    }
}

/// The deed that the connection with a neighbour began, or that it ended.
fn link_deed(neighbour: u16, is_linked: bool) -> Deed
    ensures { result ≡ (if is_linked then Connects neighbour else Disconnects neighbour) }
{
    if is_linked {
        Deed::Connects { neighbour }
    } else {
        Deed::Disconnects { neighbour }
    }
}

/// Keeps the text of a node's network beside its record. If that fails, a line says so.
fn keep<R: Files<File = File> + Eprint + AllocGlobal>(rt: &R, words: &NodeWords<'_>, net: &Net) {
    let kept = KeepWords {
        file: words.file,
        id: words.id,
        dir: words.dir,
    };
    if let Err(error) = keep_network(rt, kept, net) {
        let line = NotKept { dir: words.dir };
        let _ = eprintln!(rt; "{line}: {error}");
    }
}
