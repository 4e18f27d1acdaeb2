//! Damage on purpose: states and bytes as a transient fault may leave them, drawn from a seeded
//! generator.
//!
//! [`scramble_node`] writes all of a node's state but its desk; [`scramble_world`] lists harms that
//! write every part of a world but the waiting tickets; [`cut`] shortens bytes, as a write that
//! broke off does; [`junk_line`] makes a line of a stream that is a frame only by chance. What is
//! drawn is always in range, so every state that comes out is a possible start, and every harm is
//! accepted if no client waits. The same seed gives the same damage, on any machine:
//!
//! ```
//! let mut generator = Lcg64Xsh32::seed_from_u64(7);
//! scramble_node(&mut node, &net, &mut generator);      // node: one of net's
//! scramble_world(&net, &mut generator, &mut events)?;  // 2n + 10e or more, for n nodes and e edges
//! ```
//!
//! The generator is PCG's, of the kit's `rand_pcg`: fine for damage, and none for secrets.
//!
//! The trap: a line of junk may be a frame by chance; it is damage like any other then.
#![tactic(auto)]

mod bytes;
mod draws;
pub mod laws;
mod node;
mod world;

pub use bytes::{cut, junk_line};
pub use node::scramble_node;
pub use world::scramble_world;
