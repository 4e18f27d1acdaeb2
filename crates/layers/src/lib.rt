//! What has settled in a network: the layers of the proof, one above the other.
//!
//! From any state a network comes to serve layer by layer: first its links become stable, then the
//! distances become right, stage by stage, then the tree of distances and parents is reached, then
//! the token ring becomes good, and last each loan has the privilege. [`Layers::of`] looks at a
//! configuration and says which of the layers hold, each by its definition in the proof.
//!
//! ```
//! let layers = Layers::of(&configuration);
//! if layers.legitimate {
//!     // and so it stays, until something is damaged
//! }
//! ```
//!
//! [`are_links_stable`], [`is_tree_reached`], [`is_token_ring_good`] and [`are_loans_privileged`]
//! ask about one layer. [`is_token_ring_good`] goes round the whole tour; the others look no
//! further than the first node or link that is wrong.
//!
//! [`first_stop`] and [`next_stop`] go along the Euler tour of the true tree, which the token ring follows.
//!
//! Nothing is changed, and no memory is taken.
//!
//! The traps: a layer may hold by chance before the one below it does, and then it need not go on
//! holding; and a network may serve while it is not legitimate.
#![tactic(auto)]

mod items;
pub mod laws;
mod links;
mod loans;
mod payload_reading;
mod ring_reading;
mod token_ring;
mod tour;
mod tree;
mod whole;

pub use links::are_links_stable;
pub use loans::are_loans_privileged;
pub use token_ring::is_token_ring_good;
pub use tour::{TourStop, first_stop, next_stop};
pub use tree::is_tree_reached;
pub use whole::Layers;
