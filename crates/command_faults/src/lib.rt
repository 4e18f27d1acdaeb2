//! Why a command of `tokentree` fails, and which fault it is if standard output does not take a text.
//!
//! ```
//! let net = read_network(rt, "two-nodes.toml")?;       // or a `Fault`
//! let fault = output_fault(rt, error);                 // `Fault::Closed` if the reader is gone
//! printed(rt, rt.print("nodes 2\n"))?;                 // or one of these two
//! ```
//!
//! The trap: only a pipe without a reader counts as closed; any other error of standard output is
//! reported on standard error.
#![tactic(auto)]

mod fault;
mod output;
mod path_fault;

pub use fault::Fault;
pub use network_file::{NetworkFault, network_of, read_network};
pub use output::{kept_fault, output_fault, printed};
pub use path_fault::PathFault;
