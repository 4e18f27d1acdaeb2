//! What `lock` needs from the runtime.
use std::io::Input;
use std::net::Net;
use std::process::Processes;
use std::rt::{Env, Files};
use std::sync::Wait;
use std::time::Clock;

/// Files, sockets, processes, standard streams, the clock and waits.
pub trait System: Env
    + Net
    + Files
    + Processes
    + Clock
    + Input
    + Print
    + Eprint
    + AllocGlobal
    + Wait {}

impl<R> System for R
where
    R: Env + Net + Files + Processes + Clock + Input + Print + Eprint + AllocGlobal + Wait,
{}
