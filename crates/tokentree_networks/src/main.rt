//! The part of `tokentree` that deals with networks: `bound` and `network`, as the whole program does them.
//! It is built and proved without nodes and clients, and so in much less time; the launcher runs it until
//! the whole program is built.
//!
//! ```text
//! $ tokentree_networks bound two-nodes.toml
//! nodes 2
//! edges 1
//! ...
//! sweeps 69
//! ```
#![tactic(auto)]

use command_words::begin;
use network_words::run_words;
use std::process::ExitCode;

fn main(rt: HostRuntime) -> ExitCode {
    match begin(&rt) {
        Ok(words) => run_words(&rt, words.as_slice()),
        Err(status) => status,
    }
}
