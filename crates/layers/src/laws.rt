//! The laws of the layers that the crates above cite: of convergence, and of the tree's tour.
pub use convergence::laws::{closure, sharp};
pub use euler_ring::laws::the_tour;
