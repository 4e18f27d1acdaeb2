//! Network files by kind, for every number of nodes.
use network_commands::network::{WantedNetwork, named_text};
use network_kinds::{Kind, least_nodes, most_nodes};
use std::alloc::Global;
use std::test::Fail;
use test_parts::as_expected;
use topology::Net;

/// Whether there is a readable file of a network of this kind, with root 0, capacity 1 and no lease.
fn is_read(alloc: Global, kind: Kind, nodes: u16) -> bool {
    let wanted = WantedNetwork {
        kind,
        nodes,
        root: 0,
        capacity: 1,
        lease: 0,
    };
    match named_text(alloc, wanted) {
        Ok(text) => Net::read(alloc, text.as_str()).is_ok(),
        Err(_) => false,
    }
}

/// The first number of nodes of a kind for which there is no readable file.
fn first_unread(alloc: Global, kind: Kind) -> Option<u16> {
    for nodes in least_nodes(kind)..=most_nodes(kind) {
        if !is_read(alloc, kind, nodes) {
            return Some(nodes);
        }
    }
    None
}

/// The kinds with any number of nodes.
const KINDS: [Kind; 6] = [
    Kind::Line,
    Kind::Ring,
    Kind::Star,
    Kind::Complete,
    Kind::Tree,
    Kind::Random { edges: 63, seed: 9 },
];

/// The first number of nodes for which some kind has no readable file.
fn first_unread_of_all(alloc: Global) -> Option<u16> {
    for kind in KINDS {
        if let Some(nodes) = first_unread(alloc, kind) {
            return Some(nodes);
        }
    }
    None
}

#[test]
fn every_number_of_nodes_has_a_file(rt: HostRuntime) -> Result<(), Fail> {
    as_expected(Ok(first_unread_of_all(rt.alloc())), &None)
}
