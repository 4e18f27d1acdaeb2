//! The network of a file, and what a node says about its file, which it reads repeatedly while it runs.
//!
//! ```
//! let net = read_network(rt, "two-nodes.toml")?;       // or a `NetworkFault`
//! let net = network_of(alloc, bytes)?;                 // of bytes that were read elsewhere
//! let mut news = FileNews::new();
//! if news.step(found_in(&own, &read)) {                // once for each change, and for each fault
//!     let line = news_line(alloc, 1, "ring.toml", &own, &read)?;
//! }
//! ```
//!
//! `topology` says what makes a text a network. This crate says what makes a file such a text: it
//! is a plain file of at most 1,048,576 bytes, which are UTF-8.
//!
//! The traps: memory that runs out while the file is read is a fault of the network, not of the file. And
//! the line compares the file with the network that the node has, so it is made before the node takes up
//! the new edges.
#![tactic(auto)]

mod fault;
mod line;
mod news;
mod reading;

pub use fault::NetworkFault;
pub use line::news_line;
pub use news::{FileNews, Found, found_in};
pub use reading::{MOST_BYTES, network_of, read_network};
pub use topology::NetFault;
