//! The command `lock`: runs a command under the lock.
//!
//! [`lock::run`] connects to a node's desk, asks for the lock, runs a command while the node lends
//! it, and releases it. A [`LockClient`](lock_client::LockClient) decides what it does next; this
//! crate has the socket, the command, the clock and the lines on standard error. While the command
//! runs, a second process in [`guard::run`] holds the lock too, and takes over if the first one is
//! killed.
//!
//! ```
//! let request = Request { folder: "/run/lock", node: Some(1), limit: None, lost: 122, command, .. };
//! let status = lock::run(rt, &request);       // the command's, 122, 124 to 127, 128 + a signal
//! ```
#![tactic(auto)]

mod course;
mod desk;
mod driver;
mod family;
mod first;
pub mod guard;
mod guard_driver;
mod guard_link;
mod instants;
pub mod lock;
mod notice;
mod reach;
mod rest;
mod seconds;
mod session;
mod system;
mod waiter;
mod work;

pub use driver::{Driven, Surroundings, drive};
pub use guard_driver::{Guarded, drive_guard};
pub use lock::Request;
pub use notice::{Cause, Fate, Notice, NoticeLine};
pub use seconds::Seconds;
pub use system::System;
