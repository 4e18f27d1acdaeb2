//! The words of `network`.
ghost use Rattle.std.specs.Prelude.{◌≡◌, codes};
ghost use Rattle.command_words.specs.command_faults.Ends.{DoneMeansZero};
ghost use Rattle.network_words.specs.Named.{kind_named, most_edges, usual_edges};

use clap::ArgMatches;
use command_grammar::{
    FREE, Grammar, Number, Parameter, WordFault, given_number, number_if_given, word,
};
use command_words::program::SEED;
use command_words::refusal::{KindFault, Refusal};
use network_commands::network;
use network_commands::network::WantedNetwork;
use network_kinds::{Kind, least_nodes, most_nodes};
use std::process::ExitCode;

/// What `network` takes.
static NETWORK: Grammar<'static> = Grammar {
    name: "network",
    about: "Prints a network file: a line, ring, star, grid, tree or other graph",
    help: "\
  $ tokentree network ring 5 > ring.toml
  $ tokentree network grid 3 4 --root 5 --capacity 4 > grid.toml
  $ tokentree network random 20 --edges 30 --seed 7 > random.toml

  line N       node v is joined to v+1; 2 to 64 nodes
  ring N       a line whose ends are joined; 3 to 64
  star N       node 0 is joined to each other node; 2 to 64
  complete N   each node is joined to every other node; 2 to 23, since a network
               has at most 256 edges
  tree N       a binary tree: the children of node u are 2u+1 and 2u+2; 2 to 64
  grid N M     N rows of M nodes, each joined to those beside, above and below;
               2 to 64 nodes
  random N     each node is joined to a random earlier one, and then
               further random pairs are joined; 2 to 64

Networks of processes need --capacity 64. If --edges is left out, a random graph
has twice as many edges as a tree. --lease is 0 to 65535 ticks, --seed 0 to
4294967295. The same words give the same text on any machine. It always prints a
valid network file.

Statuses: 0 done; 1 memory or standard output failed; 2 invalid arguments.",
    parameters: &[
        Parameter::Place("KIND", "line, ring, star, complete, tree, grid or random"),
        Parameter::Place("N", "The number of nodes, or of a grid's rows"),
        Parameter::Places("M", "The number of a grid's columns"),
        Parameter::ValueOr("root", "ID", "0", "The root of the tree: a node"),
        Parameter::ValueOr(
            "capacity",
            "C",
            "1",
            "How many items a link holds, 1 to 4096",
        ),
        Parameter::ValueOr(
            "lease",
            "TICKS",
            "0",
            "How many ticks a loan lasts; 0 is no limit",
        ),
        Parameter::Value("edges", "E", "How many edges a random graph has"),
        Parameter::Value("seed", "SEED", "The seed of a random graph; 0 if left out"),
    ],
    ..FREE
};

/// What `network` takes, for the parser.
pub fn grammar() -> &'static Grammar<'static>
    ensures { result.now.name.now ≡ codes "network" }
{
    &NETWORK
}

/// The roots in a network of two nodes; larger ones have more.
const ROOT: Number<'static> = Number {
    id: "root",
    name: "--root",
    least: 0,
    most: 1,
};

/// The capacities that `--capacity` takes.
const CAPACITY: Number<'static> = Number {
    id: "capacity",
    name: "--capacity",
    least: 1,
    most: 4096,
};

/// The leases that `--lease` takes.
const LEASE: Number<'static> = Number {
    id: "lease",
    name: "--lease",
    least: 0,
    most: 65_535,
};

/// The numbers of nodes, or of rows.
const NODES: Number<'static> = Number {
    id: "N",
    name: "N",
    least: 1,
    most: 64,
};

/// The numbers of columns.
const COLUMNS: Number<'static> = Number {
    id: "M",
    name: "M",
    least: 1,
    most: 64,
};

/// The numbers of edges in a network of two nodes; larger ones have more.
const EDGES: Number<'static> = Number {
    id: "edges",
    name: "--edges",
    least: 1,
    most: 1,
};

/// Does what the words of `network` say.
pub fn run<R: Print + Eprint + AllocGlobal>(rt: &R, given: &ArgMatches) -> Result<ExitCode, Refusal>
    ensures { DoneMeansZero result }
{
    let wanted = wanted(given)?;
    Ok(network::run(rt, wanted)?)
}

/// The network that the words of `network` describe.
///
/// # Errors
/// If a word names no kind, spells no number in its range, or does not go with the kind.
fn wanted(given: &ArgMatches) -> Result<WantedNetwork, Refusal> {
    let kind = kind_named(word(given, "KIND")?).ok_or(Refusal::Kind(KindFault::Unknown))?;
    let (kind, nodes) = sized(given, kind)?;
    let last = u64::from(nodes).saturating_sub(1);
    Ok(WantedNetwork {
        kind,
        nodes,
        root: given_number(given, Number { most: last, ..ROOT })? as u16,
        capacity: given_number(given, CAPACITY)? as u16,
        lease: given_number(given, LEASE)? as u16,
    })
}

/// The kind with this name, its sizes not yet set; none for any other word.
fn kind_named(name: &str) -> Option<Kind>
    ensures { result ≡ kind_named name.now }
{
    match name {
        "line" => Some(Kind::Line),
        "ring" => Some(Kind::Ring),
        "star" => Some(Kind::Star),
        "complete" => Some(Kind::Complete),
        "tree" => Some(Kind::Tree),
        "grid" => Some(Kind::Grid { columns: 0 }),
        "random" => Some(Kind::Random { edges: 0, seed: 0 }),
        _ => None,
    }
}

/// The kind with its sizes, and its number of nodes.
fn sized(given: &ArgMatches, kind: Kind) -> Result<(Kind, u16), Refusal> {
    let is_random = matches!(kind, Kind::Random { .. });
    if !is_random && (given.get_str("edges").is_some() || given.get_str("seed").is_some()) {
        return Err(Refusal::Kind(KindFault::RandomAlone));
    }
    let columns = given.get_strs("M").unwrap_or(&[]);
    match (kind, columns) {
        (Kind::Grid { .. }, [columns]) => grid_of(given, columns),
        (Kind::Grid { .. }, _) => Err(Refusal::Kind(KindFault::NoColumns)),
        (Kind::Random { .. }, []) => random_of(given),
        (_, []) => Ok((kind, nodes_of(given, kind)?)),
        _ => Err(Refusal::Kind(KindFault::OneNumber)),
    }
}

/// The number of nodes.
fn nodes_of(given: &ArgMatches, kind: Kind) -> Result<u16, Refusal> {
    let nodes = Number {
        least: u64::from(least_nodes(kind)),
        most: u64::from(most_nodes(kind)),
        ..NODES
    };
    Ok(given_number(given, nodes)? as u16)
}

/// A grid, and its number of nodes.
fn grid_of(given: &ArgMatches, word: &str) -> Result<(Kind, u16), Refusal> {
    let rows = given_number(given, NODES)?;
    let columns = Number {
        least: if rows == 1 { 2 } else { 1 },
        most: 64 / rows.max(1),
        ..COLUMNS
    };
    let count = columns.read(word).ok_or(WordFault::NoNumber(columns))?;
    let kind = Kind::Grid {
        columns: count as u16,
    };
    Ok((kind, (rows * count) as u16))
}

/// A random graph, and its number of nodes.
fn random_of(given: &ArgMatches) -> Result<(Kind, u16), Refusal> {
    let nodes = nodes_of(given, Kind::Random { edges: 0, seed: 0 })?;
    let edges = Number {
        least: u64::from(nodes).saturating_sub(1),
        most: u64::from(most_edges(nodes)),
        ..EDGES
    };
    let kind = Kind::Random {
        edges: number_if_given(given, edges)?.unwrap_or(u64::from(usual_edges(nodes))) as u16,
        seed: number_if_given(given, SEED)?.unwrap_or(0) as u32,
    };
    Ok((kind, nodes))
}

/// The most edges of `nodes` nodes within the limits of a network: all pairs, but at most 256.
fn most_edges(nodes: u16) -> u16
    ensures { result ≡ most_edges nodes }
{
    let nodes = u32::from(nodes);
    (nodes * nodes.saturating_sub(1) / 2).min(256) as u16
}

/// The default number of edges of a random graph of `nodes` nodes.
fn usual_edges(nodes: u16) -> u16
    ensures { result ≡ usual_edges nodes }
{
    let tree = u32::from(nodes).saturating_sub(1);
    (2 * tree).min(u32::from(most_edges(nodes))) as u16
}
