//! What commands share: what they need from the runtime, and words that they take.
use command_grammar::{Number, Parameter};
use std::fs::File;
use std::io::Input;
use std::net::Net;
use std::process::Processes;
use std::rt::{Env, Files};
use std::sync::Wait;
use std::thread::Threads;
use std::time::Clock;

/// What the commands need from the runtime.
pub trait Runtime: Files<File = File>
    + Net
    + Clock
    + Env
    + Input
    + Print
    + Eprint
    + Processes
    + Threads
    + Wait
    + AllocGlobal
    + Sync {}

impl<R> Runtime for R
where
    R: Files<File = File>
        + Net
        + Clock
        + Env
        + Input
        + Print
        + Eprint
        + Processes
        + Threads
        + Wait
        + AllocGlobal
        + Sync,
{}

/// The first word of most commands.
pub const FILE: Parameter<'static> = Parameter::Place("FILE", "The network file (TOML)");

/// The events of a run.
pub const EVENTS: Parameter<'static> = Parameter::Place(
    "EVENTS",
    "The events text, or - for standard input",
);

/// The folder in the commands that use the lock.
pub const DIR: Parameter<'static> = Parameter::Place("DIR", "The folder of the nodes' sockets");

/// The ids that the parser takes. The network, or the folder, says which of them exist.
pub const ID: Number<'static> = Number {
    id: "ID",
    name: "ID",
    least: 0,
    most: 65_535,
};

/// The seeds of `--seed`.
pub const SEED: Number<'static> = Number {
    id: "seed",
    name: "--seed",
    least: 0,
    most: 4_294_967_295,
};

/// The name of the program.
pub const NAME: &str = "tokentree";

/// What the program is, in a line.
pub const ABOUT: &str =
    "A self-stabilising lock for a network of nodes, whatever state they are in";

/// The version of the program.
pub const VERSION: &str = "0.1.0";
