//! Networks by name: the usual graphs of a laboratory, and the text of a network.
//!
//! ```
//! let net = network_of(alloc, Kind::Ring, 5, 0, 1, 0)?;      // five nodes, root 0, capacity 1, no lease
//! let text = network_text(alloc, &net)?;                     // the network file that names it
//! ```
//!
//! [`edges_of`] gives the edges of a kind on a number of nodes. Each kind is a test of pairs of nodes,
//! except random graphs, which are drawn from a seed. [`network_text`] is the inverse of `Net::read`:
//! for every network, the text reads as exactly that network.
//!
//! The trap: not every kind has every number of nodes. A complete graph of more than 23 nodes has more
//! edges than a network may have; [`network_of`] refuses it, as it refuses any network that is beyond
//! the limits. [`least_nodes`] and [`most_nodes`] give the range of a kind. [`network_of`] does not
//! refuse a ring of two nodes: it makes the line of two.
//!
//! The kinds are those of every book on graphs; the random ones are random recursive trees with
//! further edges.
#![tactic(auto)]

mod kind;
mod make;
mod random;
mod text;

pub use kind::{Kind, least_nodes, most_nodes, pairs, regular_edges};
pub use make::{edges_of, network_of};
pub use random::random_edges;
pub use text::network_text;
