//! The command `status`: asks nodes how they stand.
//!
//! [`status::run`] asks nodes at their desks for their status lines, and prints them.
//! [`StatusLine::read`](node_texts::StatusLine::read) reads a line, and
//! [`report`](status_readings::report) says what is printed of the answers.
//!
//! ```
//! let status = status::run(rt, "/run/lock", &[], AnswerForm::Lines);  // 0: all answered, 1, 141
//! let status = check::run(rt, "/run/lock", "ring.toml");        // 0 OK, 1 WARNING, 2 CRITICAL, 3 UNKNOWN
//! ```
//!
//! The trap: nodes answer one after the other while the lock goes round, so two of them, or none,
//! may show the token.
#![tactic(auto)]

mod answering;
mod asking;
pub mod check;
mod folder;
pub mod looks;
mod notice;
mod question;
mod screen;
pub mod status;
pub mod watch;
mod windows;

pub use looks::LinePart;
pub use notice::{StatusNotice, StatusNoticeLine, refused};
pub use status::AnswerForm;
pub use watch::Watch;
