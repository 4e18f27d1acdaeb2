//! Texts of events, and of a state, that rows of runs give or expect.
use std::alloc::{AllocError, Global};
use std::fmt::Write;
use topology::Net;

/// One round of two nodes: both tick, and then each sends and takes twice.
pub const ROUND: &str =
    "tick 0\ntick 1\nsend 0 1\ntake 0 1\nsend 0 1\ntake 0 1\nsend 1 0\ntake 1 0\nsend 1 0\ntake 1 0\n";

/// Harms that give each of two nodes a forged token, which it lends.
pub const FORGED: &str = "\
harm own 0 0 none
harm own 1 1 0
harm staged 0 1 0 none 0
harm copy 0 1 1 0 0
harm staged 1 0 1 0 0
harm copy 1 0 0 none 1
harm desk 0 5 0 no
harm desk 1 6 0 no
";

/// How two nodes start.
pub const TWO_AT_START: &str = "\
node 0 distance 2 parent none token no lent none waiting 0
node 1 distance 2 parent none token no lent none waiting 0
";

/// What is shown after the lines of two nodes if nothing is on their links, no node is privileged, and
/// no sweep has passed.
pub const TWO_AT_REST: &str = "\
link 0 1 items 0
link 1 0 items 0
privileged 0 lending 0
sweeps 0 of 69
";

/// How the nodes of the square start.
pub const SQUARE_AT_START: &str = "\
node 0 distance 4 parent none token no lent none waiting 0
node 1 distance 4 parent none token no lent none waiting 0
node 2 distance 4 parent none token no lent none waiting 0
node 3 distance 4 parent none token no lent none waiting 0
";

/// These texts, one after the other.
pub fn joined(alloc: Global, texts: &[&str]) -> Result<String, AllocError> {
    let mut all = String::new(alloc);
    for text in texts {
        all.push_str(text)?;
    }
    Ok(all)
}

/// One round of a network: each node ticks, and then each sends to each neighbour, which takes, until
/// one more item than the link holds has gone over.
pub fn round_of(alloc: Global, net: &Net) -> Result<String, AllocError> {
    let mut text = String::new(alloc);
    for v in 0..net.nodes() {
        writeln!(text, "tick {v}")?;
    }
    for from in 0..net.nodes() {
        for to in net.neighbours(from) {
            for _ in 0..=net.capacity() {
                writeln!(text, "send {from} {to}")?;
                writeln!(text, "take {from} {to}")?;
            }
        }
    }
    Ok(text)
}
