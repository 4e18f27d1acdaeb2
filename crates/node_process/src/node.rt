//! `node FILE ID DIR`: a node of a network as a process.
ghost use Rattle.std.specs.Prelude.{◌≡◌, ◌↔◌, ◌<◌, Some, None, IfOk, IfErr, IsTrue, length};
ghost use Rattle.topology.specs.Change.{is_same_frame};
ghost use Rattle.record_files.specs.process_parts.declared.start.StartStage.TheVariants.{Held};
ghost use Rattle.node_process.specs.Ends.{end_fault, ends_by};

use crate::observer::Observer;
use crate::start::start_node;
use look_window::{COMERS, LookNotes, is_let_in, show};
use node_folder::{
    FileNews, FileStore, FolderOpener, Names, Opener, ProcessDoors, Seat, Stopwatch, Store,
    check_words, remove_own_sockets, say_news, see, take_place,
};
use node_loop::{Doors, NodeRun};
use record_files::process_parts::{
    AfterSave, NodeFault, NodePaths, NodeWords, StartStage, after_save, read_network, set_mode,
};
use std::alloc::Global;
use std::fs::File;
use std::io::Input;
use std::net::Net as Sockets;
use std::rt::{Clock, Env, Files};
use topology::Net;

/// Runs node ID of the network of FILE in DIR, until its stop file exists.
///
/// It prints `start loaded` or `start default NAME`, then `ready` once its sockets listen. Whoever
/// connects to its socket for lookers is shown how it stands. After each 256th turn its state is
/// saved; then it checks that its names in DIR still lead to its own files, looks for the stop
/// file, and reads FILE again.
///
/// # Errors
/// Why it does not run; nothing is made before the network, the id and the folder's name are found
/// valid. Or why it ends: its stop file cannot be removed, or its place in DIR is no longer its own.
pub fn run<R>(rt: &R, words: &NodeWords<'_>) -> Result<(), NodeFault>
where
    R: Files<File = File> + Sockets + Clock + Env + Input + Print + Eprint + AllocGlobal,
{
    let mut stage = StartStage::Begun;
    let net = check_words(rt, words, &mut stage)?;
    match take_place(rt, words, &mut stage) {
        // The place is held until the node ends.
        Ok((paths, place)) => {
            let seat = Seat {
                words,
                paths: &paths,
                place: &place,
            };
            let ended = run_over_files(rt, &seat, net, stage);
            drop(place);
            drop(paths);
            ended
        }
        Err(fault) => {
            drop(net);
            Err(fault)
        }
    }
}

/// Runs the node whose place is held, over sockets and a file of the folder.
fn run_over_files<R>(
    rt: &R,
    seat: &Seat<'_, '_>,
    net: Net,
    stage: StartStage,
) -> Result<(), NodeFault>
where
    R: Files<File = File> + Sockets + Clock + Env + Input + Print + Eprint + AllocGlobal,
    requires node { seat.now.words.now.id < net.nodes }
    requires held { stage ≡ Held }
{
    let opener = FolderOpener {
        rt,
        words: seat.words,
        paths: seat.paths,
    };
    let store = FileStore::new(rt, seat.paths.state.as_str());
    run_in_place(rt, seat, &opener, store, net, stage)
}

/// Runs the node whose place in the folder is held.
fn run_in_place<R, O: Opener, S: Store + Drop>(
    rt: &R,
    seat: &Seat<'_, '_>,
    opener: &O,
    store: S,
    net: Net,
    mut stage: StartStage,
) -> Result<(), NodeFault>
where
    R: Files<File = File> + Sockets + Clock + Env + Input + Print + Eprint + AllocGlobal,
    requires node { seat.now.words.now.id < net.nodes }
    requires held { stage ≡ Held }
{
    match start_node(rt, seat, opener, store, net, &mut stage) {
        Ok((mut run, mut names)) => {
            let ended = run_started(rt, seat.words, seat.paths, &mut names, &mut run);
            drop(names);
            drop(run);
            ended
        }
        Err(fault) => Err(fault),
    }
}

/// Runs a node that has started, until it must end. Then its sockets are removed, unless they may be
/// another's.
fn run_started<R, D: ProcessDoors, S: Store + Drop>(
    rt: &R,
    words: &NodeWords<'_>,
    paths: &NodePaths,
    names: &mut Names<'_>,
    run: &mut NodeRun<D, S>,
) -> Result<(), NodeFault>
where
    R: Files<File = File> + Sockets + Clock + Env + Input + Eprint + AllocGlobal,
{
    match watched(rt, words, run) {
        Ok(mut observer) => {
            let end = run_turns(rt, words, &mut observer, names, run);
            drop(observer);
            remove_own_sockets(rt, paths, end);
            fault_of_end(end)
        }
        Err(fault) => Err(fault),
    }
}

/// What watches a node that starts now with these words.
///
/// # Errors
/// If the system gives no clock, or the node keeps a record and memory runs out.
fn watched<'a, 'w, R, D: Doors, S: Store + Drop>(
    rt: &'a R,
    words: &NodeWords<'w>,
    run: &NodeRun<D, S>,
) -> Result<Observer<'a, 'w, R>, NodeFault>
where
    R: Files<File = File> + Sockets + Clock + Env + Eprint + AllocGlobal,
    ensures { IfOk result (λ observer. (observer.journal.log.least ≡ words.now.log)
        × (observer.window.notes.limit ≡ words.now.turn)) }
{
    match Stopwatch::start(rt) {
        Ok(watch) => Observer::open(rt, words, watch, run),
        Err(_) => Err(NodeFault::System),
    }
}

/// The fault of a node that ends like this.
fn fault_of_end(end: AfterSave) -> Result<(), NodeFault>
    ensures ok { IfOk result (λ _. end_fault end ≡ None) }
    ensures err { IfErr result (λ fault. end_fault end ≡ Some fault) }
{
    match end {
        AfterSave::Displaced => Err(NodeFault::Displaced),
        AfterSave::StopStays => Err(NodeFault::StopStays),
        AfterSave::Stop | AfterSave::GoOn(_) => Ok(()),
    }
}

/// Takes turns until the node must end, and says how it ends.
fn run_turns<R, D: ProcessDoors, S: Store + Drop>(
    rt: &R,
    words: &NodeWords<'_>,
    observer: &mut Observer<'_, '_, R>,
    names: &mut Names<'_>,
    run: &mut NodeRun<D, S>,
) -> AfterSave
where
    R: Files<File = File> + Sockets + Clock + Input + Eprint + AllocGlobal,
{
    for _ in 0..u64::MAX {
        if let Some(now) = observer.awaits_turn(run)
            && take_turn(rt.alloc(), observer, run, now)
        {
            let next = look(rt, words, names, run);
            observer.rewired(words, run);
            if ends(next) {
                observer.ends(now);
                return next;
            }
        }
    }
    AfterSave::Stop
}

/// Takes a turn, notes and records it, says what happened in it, and then shows lookers how the
/// node stands. Returns whether to look at the node's files now: after each 256th turn, whatever
/// the store answered.
fn take_turn<R, D: ProcessDoors, S: Store + Drop>(
    alloc: Global,
    observer: &mut Observer<'_, '_, R>,
    run: &mut NodeRun<D, S>,
    now: u64,
) -> bool
where
    R: Files<File = File> + Clock + Eprint + AllocGlobal,
    ensures { IsTrue result ↔ (run.old.turns ≡ 255) }
{
    let turned = observer.take_turn(run, now);
    let clients = run.doors().look_at_clients();
    observer.turn_ended(run, &turned, clients, now);
    if run.doors().may_be_looked_at() {
        show_all(alloc, &observer.window, run, observer.watch.last());
    }
    turned.is_to_look()
}

/// Shows all lookers how the node stands at this instant. If memory is refused, they wait.
fn show_all<D: ProcessDoors, S: Store + Drop>(
    alloc: Global,
    window: &LookNotes<'_>,
    run: &mut NodeRun<D, S>,
    at: u64,
) {
    if let Ok(line) = window.line(alloc, run.node(), at) {
        show_line(run.doors(), line.as_bytes());
    }
}

/// Shows a line to all lookers.
fn show_line<D: ProcessDoors>(doors: &mut D, line: &[u8])
    requires { 0 < length line.now }
{
    for place in 0..COMERS {
        let Some(mut looker) = doors.looker() else {
            return;
        };
        if is_let_in(place) {
            let _whole = show(&mut looker, line);
        }
    }
}

/// Whether a node ends by this decision.
fn ends(next: AfterSave) -> bool
    ensures { result ≡ ends_by next }
{
    !matches!(next, AfterSave::GoOn(_))
}

/// Looks at the node's files after a turn that saved, and does what it must if it runs on. Returns
/// what it does next.
fn look<R, D: ProcessDoors, S: Store + Drop>(
    rt: &R,
    words: &NodeWords<'_>,
    names: &mut Names<'_>,
    run: &mut NodeRun<D, S>,
) -> AfterSave
where
    R: Files + Sockets + Input + Eprint + AllocGlobal,
    ensures { IsTrue (ends_by result) → names.new ≡ names.old }
{
    let next = after_save(see(rt, words, names, run.doors()));
    if let AfterSave::GoOn(lost) = next {
        let _ = set_mode(rt, names.paths.state.as_str(), words.rights.own());
        rewire_by_file(rt, words, &mut names.news, run);
        names.take_back(rt, run.doors(), lost);
    }
    next
}

/// Reads the network file again, takes over its edges, and says what is new in it. An invalid
/// file, a network that differs in more than edges, and edges that the node already has change
/// nothing.
fn rewire_by_file<R: Files + Eprint + AllocGlobal, D: Doors, S: Store + Drop>(
    rt: &R,
    words: &NodeWords<'_>,
    news: &mut FileNews,
    run: &mut NodeRun<D, S>,
)
    // Of the network, only the edges ever change.
    ensures { IsTrue (is_same_frame run.old.net run.new.net) }
{
    let read = read_network(rt, words.file);
    say_news(rt, words, news, run.net(), &read);
    if let Ok(net) = &read {
        let _ = run.rewire(net);
    }
}
