//! What the commands of `tokentree` do in cases that no command line leads to: with runs and networks
//! that no words make, and with readers and writers that fail. Scripts of command lines test the rest.
//!
//! There are only tests here, since testing a crate proves all of that crate once more.
#![tactic(auto)]

#[cfg(test)]
mod tests;
