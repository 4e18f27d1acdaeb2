//! All that was done by nodes that run as processes of their own is a run; so the lock's guarantees
//! hold for them.
//!
//! Each node has an account of what it did, deed by deed, each at an instant. Each link between two
//! nodes has a history by the same instants: it keeps order, it may lose any frame, it holds at
//! most as many frames as its capacity, and it accepts no frame at an instant at which it gives
//! one. If the nodes go by their own steps and the links by such histories, there is a list of
//! events, the deeds in the order of their instants with losses between them, that is a run of the
//! network. So from every state the network comes to serve, and then serves permanently.
//!
//! Nothing is computed here: `laws` has the statements, as contracts of functions that do nothing.
//! The code that drives a node names its account. What is asked of the links is believed.
//!
//! The trap: a stretch is without damage. If a node begins again, or an edge comes or goes, a new
//! stretch begins, from the world of that instant, which may be any in range.
#![tactic(auto)]

pub mod laws;
