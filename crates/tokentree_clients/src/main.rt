//! The part of `tokentree` that asks running nodes: `lock`, `status` and `stop`, as the whole program does
//! them. It is built and proved without the nodes; the launcher runs it until the whole program is built.
//!
//! ```text
//! $ tokentree_clients version
//! tokentree 0.1.0
//! ```
#![tactic(auto)]

use client_words::run_words;
use command_words::begin;
use std::process::ExitCode;

fn main(rt: HostRuntime) -> ExitCode {
    match begin(&rt) {
        Ok(words) => run_words(&rt, words.as_slice()),
        Err(status) => status,
    }
}
