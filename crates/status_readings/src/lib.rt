//! What is made of the readings of a network: a report, the verdict of a check, JSON, and the picture of a watch.
//!
//! A *reading* is what each node answered when it was asked once. The nodes answer one after the
//! other, so a reading does not show a single instant.
//!
//! ```
//! let text = report(alloc, &answers)?;                 // what `status` prints
//! let found = verdict(&net, &first, &second, &third);  // three readings, a second apart
//! found.severity().status();                           // 0, 1 or 2
//! let text = status_json(alloc, &answers)?;            // {"lending":1,"nodes":[..],"privileged":1}
//! let rows = rows(alloc, &answers)?;                   // children under their parents
//! ```
//!
//! Nothing here asks a node.
//!
//! The trap: two nodes that lend in one reading may have lent one after the other.
#![tactic(auto)]

mod answers;
mod check_line;
mod counts;
mod drawing;
mod findings;
mod json;
pub mod laws;
mod looks;
mod minute;
mod premises;
mod standing;
mod tree;

pub use answers::{NodeAnswer, all_answered, report};
pub use check_line::{CheckLine, Figures};
pub use drawing::picture;
pub use findings::{Finding, Severity, verdict};
pub use json::status_json;
pub use looks::{LinkSaid, LinksSaid, LoansSaid, links_report, read_links};
pub use minute::{Minute, NodeLoans, Rates, Sample};
pub use premises::{PremisesLine, TurnsSaid, premises_report};
pub use standing::read_standing;
pub use tree::{Row, rows};
