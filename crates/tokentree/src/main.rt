//! `tokentree`, the program of a self-stabilising lock over a spanning tree. Each command is a
//! subcommand.
//!
//! ```text
//! $ tokentree bound two-nodes.toml
//! nodes 2
//! edges 1
//! ...
//! sweeps 69
//!
//! $ tokentree simulate two-nodes.toml events.txt
//! line 4: NoNode
//! node 0 distance 0 parent none token yes lent none waiting 0
//! ...
//! sweeps 1 of 69
//! ```
//!
//! It keeps no state and holds no lock itself. The crates below do what a command does;
//! `command_line` has the commands' options and help.
//!
//! Exit statuses: 0 done, also after help; 1 a file, memory or the output failed, and a line
//! `tokentree: ..` on standard error says which; 2 invalid arguments; 3 `simulate` is done, and
//! refused some lines. `lock` exits with its command's status, or with 122 to 127 (`help lock`).
//! A standard stream that is closed counts as the null device, so that no file is written to in its
//! place. Faults are looked for in this order: the arguments, the network, a node's id, the
//! command's own files.
#![tactic(auto)]

use command_line::{begin, run_words};
use std::io::IsTerminal;
use std::process::ExitCode;

fn main(rt: HostRuntime) -> ExitCode {
    match begin(&rt) {
        Ok(words) => run_words(&rt, words.as_slice(), rt.stderr().is_terminal()),
        Err(status) => status,
    }
}
