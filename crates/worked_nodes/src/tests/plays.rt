//! Plays: what happens between one node and the other ends of its connections, act by act.
use super::nodes::{Run, WITH_TOKEN, on_stage, row, run_of, run_with, stored, with_made};
use super::stage::Stage;
use super::wires::{Pair, Queue, ROOM};
use flight_records::Deed;
use node_core::Node;
use node_loop::Notes;
use std::alloc::{AllocError, Global};
use std::test::Fail;
use test_parts::as_expected;

/// Plays. The first word of each is its node:
///
/// - `token`: the root of two nodes, which has the token; `leased` if a loan's lease is one tick;
///   `fresh` if it is new; `strangers` if at its desk three tickets wait that no client has.
/// - `first`, `middle`, `last`: a new node of three in a row.
///
/// The acts follow. The next connection `comes`: a client's to one of the first four, a higher
/// neighbour's to `first` and `middle`. To `last`, which comes to `middle` by itself, none does.
/// The node `turns`, or `attends` between two turns. Of a connection, by its place, the other end
/// `says` a text, closes its sending half, or is cut, so that every write to it fails. What it then
/// `hears` is exactly what was written to it. All other acts are what is seen then.
const PLAYS: [&str; 30] = [
    // A client that closes gives the lock back.
    "token, comes, 0 says lock\n, turns, 0 hears granted\n, 0 closes, turns, 0 is closed, comes, \
     1 says status\n, turns, 1 hears node 0 distance 0 parent none token no lent none waiting 0\n",
    // A client keeps the lock beyond its lease of one tick: the loan begins in the first turn, has
    // one tick left until the second, and ends in the third. Between turns it lasts.
    "leased, comes, 0 says lock\n, turns, 0 hears granted\n, attends, turns, attends, 0 hears , \
     lends 0, waits 0, turns, 0 hears lost\n, lends none, waits 0, 0 is open",
    // A client that cannot be answered has left.
    "token, comes, 0 says lock\n, 0 is cut, turns, 0 hears , 0 is closed, lends none, waits 0, \
     turns, comes, 1 says status\n, turns, \
     1 hears node 0 distance 0 parent none token no lent none waiting 0\n",
    // Each line has its answer.
    "token, comes, 0 says lock\n, turns, 0 hears granted\n, 0 is open",
    "token, comes, 0 says lock\nlock\n, turns, 0 hears twice\ngranted\n, 0 is open",
    "token, comes, 0 says lock\nunlock\n, turns, 0 hears released\n, 0 is open",
    "token, comes, 0 says unlock\n, turns, 0 hears stranger\n, 0 is open",
    "token, comes, 0 says Lock\n, turns, 0 hears unknown\n, 0 is open",
    "token, comes, 0 says lock \n, turns, 0 hears unknown\n, 0 is open",
    "token, comes, 0 says \n, turns, 0 hears unknown\n, 0 is open",
    "token, comes, 0 says aaaaaaaaaaaaaaaaa\n, turns, 0 hears unknown\n, 0 is open",
    "token, comes, 0 says aaaaaaaaaaaaaaaaa, turns, 0 hears , 0 is open",
    "token, comes, 0 says status, turns, 0 hears , 0 is open",
    "token, comes, 0 says status\n, turns, \
     0 hears node 0 distance 0 parent none token yes lent none waiting 0\n, 0 is open",
    // A line comes in parts, and the sending half may close.
    "token, comes, 0 says stran, attends, 0 hears , 0 says ge\nunlock\n, 0 closes, attends, \
     0 hears unknown\nstranger\n, 0 is open, attends, 0 is closed",
    // A client asks more often than there is room for answers, and has left.
    "fresh, comes, 0 says lock\nstatus\nstatus\nstatus\nstatus\n, attends, lends none, waits 1, \
     0 is open, 0 says status\nstatus\nstatus\nstatus\nstatus\n, attends, lends none, waits 0, \
     0 is closed",
    // A client comes to a node with the tickets of strangers: then only ticket 0 waits, and nobody
    // borrows.
    "strangers, comes, attends, lends none, waits 1, queues 0",
    // A turn notes what it did, if there is room for notes.
    "token, comes, 0 says lock\n, turns, noted asks ticks , 0 says status\n, turns, noted ticks , \
     turns, noted ticks , 0 says unlock\nlock\n, turns, noted leaves asks ticks ",
    "fresh, turns unnoted",
    // Only the hello of a higher neighbour is welcome. The frame is the first of a new node of
    // three.
    "middle, comes, 0 says H0002\n, turns, 0 is open, 0 hears F000000000003ffff0000\n",
    "middle, comes, 0 says H0000\n, turns, 0 is closed, 0 hears ",
    "middle, comes, 0 says H0001\n, turns, 0 is closed, 0 hears ",
    "middle, comes, 0 says H0003\n, turns, 0 is closed, 0 hears ",
    "middle, comes, 0 says h0002\n, turns, 0 is closed, 0 hears ",
    "middle, comes, 0 says H002\n, turns, 0 is closed, 0 hears ",
    "middle, comes, 0 says H00022, turns, 0 is closed, 0 hears ",
    "middle, comes, 0 says \n, turns, 0 is closed, 0 hears ",
    // A hello comes in parts, and frames after it.
    "first, comes, 0 says H00, attends, 0 is open, 0 says 01\nF000000000003ffff0000\n, attends, \
     numbered 1",
    // A newer hello replaces the older connection.
    "first, comes, 0 says H0001\n, turns, 0 hears F000000000003ffff0000\n, 0 is open, comes, \
     1 says H0001\n, turns, 1 hears F000000000003ffff0000\n, 1 is open, 0 is closed",
    // A node connects to a lower neighbour, says who it is, and does so again if that neighbour
    // closes.
    "last, attends, 0 is sent H0002\nF000000000003ffff0000\n, 1 is sent , 0 shuts, attends, \
     0 is left, turns, 1 is sent H0002\nF000000000003ffff0000\n",
];

/// Does this at a connection, and returns whether it is as expected.
fn is_done_at(pair: &Pair, deed: &str, text: &[u8]) -> bool {
    match deed {
        "says" => pair.up.write(text, ROOM) == text.len(),
        "hears" => pair.down.gives(text),
        "sent" => pair.up.gives(text),
        "closes" => !pair.up.is_closed.replace(true),
        "shuts" => !pair.down.is_closed.replace(true),
        "cut" => !pair.down.is_cut.replace(true),
        "open" => !pair.down.is_closed.get(),
        "closed" => pair.down.is_closed.get(),
        "left" => pair.up.is_closed.get(),
        _ => false,
    }
}

/// Does this at the connection with this place, if there is one.
fn is_done_among(pairs: &[Pair], place: &str, deed: &str) -> bool {
    let deed = deed.strip_prefix("is ").unwrap_or(deed);
    let (deed, text) = deed.split_once(' ').unwrap_or((deed, ""));
    match pairs.get(place.parse::<usize>().unwrap_or(usize::MAX)) {
        Some(pair) => is_done_at(pair, deed, text.as_bytes()),
        None => false,
    }
}

/// Whether what is seen of a node is as expected.
fn is_seen(node: &Node, what: &str, number: Option<u16>) -> bool {
    match what {
        "lends" => node.lent() == number,
        "waits" => Some(node.waiting()) == number.map(|number| number as usize),
        "queues" => node.tickets().first().copied() == number,
        "numbered" => node.ranges().nodes > 1 && Some(node.seq(1)) == number,
        _ => false,
    }
}

/// Whether these are the notes of the last turn, with a space after each.
fn are_noted(notes: &Notes, mut words: &str) -> bool {
    for deed in notes.deeds() {
        let word = match deed {
            Deed::Asks { ticket: 0 } => "asks ",
            Deed::Leaves { ticket: 0 } => "leaves ",
            Deed::Ticks => "ticks ",
            _ => "other ",
        };
        let Some(rest) = words.strip_prefix(word) else {
            return false;
        };
        words = rest;
    }
    words.is_empty() && notes.has_all()
}

/// Makes a turn, with no room for notes unless `how` is empty. Returns whether a lack of room is
/// known then.
fn is_turned(run: &mut Run<'_>, notes: &mut Notes, how: &str) -> bool {
    if how.is_empty() {
        run.turn(0, notes);
        return true;
    }
    let mut none = Notes::none();
    run.turn(0, &mut none);
    none.deeds().is_empty() && !none.has_all()
}

/// Lets the node attend to what came, which is always as expected.
fn is_attended(run: &mut Run<'_>, notes: &mut Notes) -> bool {
    run.attend(0, notes);
    true
}

/// Does this, and returns whether it is as expected.
fn is_done(run: &mut Run<'_>, queue: &Queue, notes: &mut Notes, act: &str) -> bool {
    let (word, rest) = act.split_once(' ').unwrap_or((act, ""));
    match word {
        "comes" => queue.knock().is_some(),
        "turns" => is_turned(run, notes, rest),
        "attends" => is_attended(run, notes),
        "noted" => are_noted(notes, rest),
        "0" | "1" => is_done_among(&queue.pairs, word, rest),
        _ => is_seen(run.node(), word, rest.parse::<u16>().ok()),
    }
}

/// The place of the first act that is not as expected.
fn first_wrong(
    alloc: Global,
    run: &mut Run<'_>,
    queue: &Queue,
    acts: &str,
) -> Result<Option<usize>, Fail> {
    let mut notes = Notes::with_room(alloc)?;
    for (place, act) in acts.split(", ").enumerate() {
        if !is_done(run, queue, &mut notes, act) {
            return Ok(Some(place));
        }
    }
    Ok(None)
}

/// The root of two nodes; at its desk three tickets wait and a fourth has the loan.
fn with_strangers<'a>(alloc: Global, stage: &'a Stage) -> Result<Run<'a>, Fail> {
    let net = row(alloc, 2, 1, 0)?;
    if net.nodes() == 0 {
        return Err(Fail::from(AllocError));
    }
    let mut node = Node::new(alloc, &net, 0)?;
    let is_set = node.set_waiting(&[7, 0, 65535]).is_ok()
        && node.set_desk(Some(300), 0, false).is_ok();
    if !is_set {
        return Err(Fail::from(AllocError));
    }
    run_with(alloc, stage, net, node, stored(alloc, b"")?)
}

/// The node with this name.
fn begun<'a>(alloc: Global, stage: &'a Stage, name: &str) -> Result<Run<'a>, Fail> {
    let (nodes, lease, id) = match name {
        "strangers" => return with_strangers(alloc, stage),
        "token" | "fresh" => (2, 0, 0),
        "leased" => (2, 1, 0),
        "first" => (3, 0, 0),
        "middle" => (3, 0, 1),
        _ => (3, 0, 2),
    };
    let file = match name {
        "token" | "leased" => WITH_TOKEN.as_slice(),
        _ => b"",
    };
    run_of(alloc, stage, row(alloc, nodes, 1, lease)?, id, file)
}

/// The place of the first act of a play that is not as expected.
fn wrong_act(alloc: Global, stage: &Stage, play: &str) -> Result<Option<usize>, Fail> {
    let (name, acts) = play.split_once(", ").unwrap_or((play, ""));
    let queue = match name {
        "first" => stage.links.first(),
        "middle" | "last" => stage.links.get(1),
        _ => stage.clients.first(),
    };
    let Some(queue) = queue else {
        return Ok(Some(0));
    };
    with_made(
        begun(alloc, stage, name),
        |run| first_wrong(alloc, run, queue, acts),
    )?
}

/// The place of the first play that does not go as written, and of its act.
fn first_unlike(alloc: Global) -> Result<Option<(usize, usize)>, Fail> {
    for (place, play) in PLAYS.iter().enumerate() {
        let wrong = on_stage(alloc, 2, 2, |stage| wrong_act(alloc, stage, play))?;
        if let Some(act) = wrong {
            return Ok(Some((place, act)));
        }
    }
    Ok(None)
}

#[test]
fn plays_go_as_written(rt: HostRuntime) -> Result<(), Fail> {
    as_expected(first_unlike(rt.alloc()), &None)
}
