//! What is wrong with a network file.
ghost use Rattle.std.specs.Prelude.{Some};
ghost use Rattle.network_hints.specs.HintText.{edge_text, flaw_text, hint_text, none_of_text};

use crate::key::Key;
use std::fmt;

/// What is wrong with the values of a network file.
#[derive(Clone, Copy)]
pub enum ValueFlaw {
    /// There is no such key.
    NoKey(Key),
    /// The value is no integer.
    NoInteger(Key),
    /// The edges are no array.
    NoArray,
    /// The edge at this place, the first being 0, is no array of two integers.
    NoEdge(usize),
    /// The value is not in the range from the first number to the second.
    OutOfRange(Key, i64, i64, i64),
    /// There are more than 256 edges.
    TooMany(usize),
    /// The root is none of this many nodes.
    NoRoot(i64, i64),
    /// The edge names a node that is none of this many.
    NoNode(i64, i64, i64),
    /// An edge joins the node with itself.
    Loop(i64),
    /// The edge stands there twice, either way round.
    Twice(i64, i64),
}

impl fmt::Display for ValueFlaw {
    ghost output = { λ flaw. Some (flaw_text flaw) };

    fn fmt<W: fmt::Write>(&self, f: &mut fmt::Formatter<W>) -> fmt::Result {
        match *self {
            ValueFlaw::NoKey(key) => write!(f, "no key '{}'", key.name()),
            ValueFlaw::NoInteger(key) => write!(f, "key '{}': must be an integer", key.name()),
            ValueFlaw::NoArray => {
                f.write_str("key 'edges': must be an array of edges, as [[0, 1], [1, 2]]")
            }
            ValueFlaw::NoEdge(place) => {
                write!(
                    f,
                    "key 'edges': edge {place} must be two integers, as [0, 1]"
                )
            }
            ValueFlaw::OutOfRange(key, value, least, most) => write!(
                f,
                "key '{}': {value} must be an integer from {least} to {most}",
                key.name()
            ),
            ValueFlaw::TooMany(count) => write!(f, "key 'edges': {count} edges are more than 256"),
            ValueFlaw::NoRoot(root, nodes) => write!(f, "key 'root': {root}{}", NoneOf(nodes)),
            ValueFlaw::NoNode(one, other, nodes) => write!(
                f,
                "key 'edges': in {} one{}",
                Edge(one, other),
                NoneOf(nodes)
            ),
            ValueFlaw::Loop(node) => write!(
                f,
                "key 'edges': {} joins a node with itself",
                Edge(node, node)
            ),
            ValueFlaw::Twice(one, other) => {
                write!(f, "key 'edges': {} is there twice", Edge(one, other))
            }
        }
    }
}

/// An edge, as a file writes it.
#[derive(Clone, Copy)]
struct Edge(i64, i64);

impl fmt::Display for Edge {
    ghost output = { λ edge. Some (edge_text edge.0 edge.1) };

    fn fmt<W: fmt::Write>(&self, f: &mut fmt::Formatter<W>) -> fmt::Result {
        write!(f, "edge [{}, {}]", self.0, self.1)
    }
}

/// The words which say that it is none of this many nodes.
#[derive(Clone, Copy)]
struct NoneOf(i64);

impl fmt::Display for NoneOf {
    ghost output = { λ nodes. Some (none_of_text nodes.0) };

    fn fmt<W: fmt::Write>(&self, f: &mut fmt::Formatter<W>) -> fmt::Result {
        write!(f, " is none of {} nodes", self.0)
    }
}

/// A flaw, with an unknown key that is like the one that is missing.
#[derive(Clone, Copy)]
pub struct Hint<'a> {
    /// The network file.
    pub file: &'a str,
    /// What is wrong.
    pub flaw: ValueFlaw,
    /// The unknown key.
    pub like: Option<&'a str>,
}

impl fmt::Display for Hint<'_> {
    ghost output = { λ hint. Some (hint_text hint.file.now hint.flaw hint.like) };

    fn fmt<W: fmt::Write>(&self, f: &mut fmt::Formatter<W>) -> fmt::Result {
        let (file, flaw) = (self.file, self.flaw);
        match self.like {
            None => write!(f, "{file}: {flaw}"),
            Some(like) => write!(f, "{file}: {flaw}; it has an unknown key '{like}'"),
        }
    }
}
