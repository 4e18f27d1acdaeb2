//! What a node sees of its files while it runs, and which of them it removes.
ghost use Rattle.std.specs.Prelude.{◌≡◌, false};
ghost use Rattle.process_parts.specs.node_keeping.AfterSave.{looks_for_stop};
ghost use Rattle.network_file.specs.News.{found_in, news_then};
ghost use Rattle.process_parts.specs.node_keeping.declared.saved.StopSight.TheVariants.{Absent};

use crate::doors::ProcessDoors;
use crate::names::Names;
use held_signals::state_now;
use network_file::{FileNews, found_in, news_line};
use process_parts::{
    AfterSave, NetworkFault, NodePaths, NodeWords, Sights, StopSight, looks_for_stop, remove,
};
use std::fs;
use std::io::Input;
use std::rt::Files;
use topology::Net;

/// What a node sees after a turn that saved its state. It touches no file in a folder that is
/// another's. A node that `up` started is asked to end by the end of its input, or by a SIGTERM,
/// which it holds back.
pub fn see<R: Files + Input + AllocGlobal, D: ProcessDoors>(
    rt: &R,
    words: &NodeWords<'_>,
    names: &Names<'_>,
    doors: &mut D,
) -> Sights
    ensures stop { looks_for_stop result.place ≡ false → result.stop ≡ Absent }
    // Whoever runs a node by hand ends it by a stop file or a signal alone.
    ensures asked { words.now.is_child ≡ false → result.is_asked ≡ false }
{
    let place = names.place.sight(rt, names.paths.lock.as_str());
    let stop = if looks_for_stop(place) {
        look_for_stop(rt, names.paths.stop.as_str())
    } else {
        StopSight::Absent
    };
    Sights {
        place,
        stop,
        is_asked: is_asked(rt, words, doors),
        links: names.links.sight(rt),
        clients: names.clients.sight(rt),
        looks: names.looks.sight(rt),
    }
}

/// Whether a node that `up` started is asked to end.
fn is_asked<R: Files + Input + AllocGlobal, D: ProcessDoors>(
    rt: &R,
    words: &NodeWords<'_>,
    doors: &mut D,
) -> bool
    ensures { words.now.is_child ≡ false → result ≡ false }
{
    words.is_child && (doors.has_input_ended(rt) || state_now(rt).heeded().terminate)
}

/// Looks for the stop file, and removes it.
fn look_for_stop<F: Files>(files: &F, stop: &str) -> StopSight {
    match fs::remove_file(files, stop) {
        Ok(()) => StopSight::Removed,
        Err(_) if fs::symlink_metadata(files, stop).is_ok() => StopSight::Stays,
        Err(_) => StopSight::Absent,
    }
}

/// Removes the sockets of a node that ends like this, unless they may be another's.
pub fn remove_own_sockets<F: Files>(files: &F, paths: &NodePaths, end: AfterSave) {
    if end != AfterSave::Displaced {
        remove_sockets(files, paths);
    }
}

/// Removes a node's sockets. What cannot be removed is removed by the next start.
fn remove_sockets<F: Files>(files: &F, paths: &NodePaths) {
    let _ = remove(files, paths.links.as_str());
    let _ = remove(files, paths.clients.as_str());
    let _ = remove(files, paths.looks.as_str());
}

/// Says what a node of this network found in its file, if that is news.
pub fn say_news<R: Eprint + AllocGlobal>(
    rt: &R,
    words: &NodeWords<'_>,
    news: &mut FileNews,
    own: &Net,
    read: &Result<Net, NetworkFault>,
)
    ensures { news.new ≡ news_then (found_in own.now read.now) }
{
    if news.step(found_in(own, read)) {
        say_line(rt, words, own, read);
    }
}

/// Says what a node of this network found in its file.
fn say_line<R: Eprint + AllocGlobal>(
    rt: &R,
    words: &NodeWords<'_>,
    own: &Net,
    read: &Result<Net, NetworkFault>,
) {
    if let Ok(line) = news_line(rt.alloc(), words.id, words.file, own, read) {
        let _ = rt.eprintln(line);
    }
}
