//! Worked runs on threads: what nodes of small networks do under any scheduler. Every expected
//! value was computed by hand.
//!
//! It has only tests, since testing a crate proves all of that crate once more.
#![tactic(auto)]

#[cfg(test)]
mod tests;
