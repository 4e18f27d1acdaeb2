//! The part of `tokentree` that runs nodes: `node` and `up`, as the whole program does them. It is built and
//! proved without the clients; the launcher runs it until the whole program is built.
//!
//! ```text
//! $ tokentree_nodes version
//! tokentree 0.1.0
//! ```
#![tactic(auto)]

use command_words::begin;
use node_process::NodeProcess;
use process_words::run_words;
use std::process::ExitCode;

fn main(rt: HostRuntime) -> ExitCode {
    match begin(&rt) {
        Ok(words) => run_words(&rt, words.as_slice(), &NodeProcess),
        Err(status) => status,
    }
}
