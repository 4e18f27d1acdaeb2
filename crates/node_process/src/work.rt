//! A node, as a command line runs it.
use crate::node;
use record_files::process_parts::{NodeFault, NodeWords, NodeWork};
use std::fs::File;
use std::io::Input;
use std::net::Net as Sockets;
use std::rt::{Clock, Env, Files};

/// Runs nodes over the files and sockets of a folder.
#[derive(Clone, Copy)]
pub struct NodeProcess;

impl<R> NodeWork<R> for NodeProcess
where
    R: Files<File = File> + Sockets + Clock + Env + Input + Print + Eprint + AllocGlobal,
{
    fn run(&self, rt: &R, words: &NodeWords<'_>) -> Result<(), NodeFault> {
        node::run(rt, words)
    }
}
