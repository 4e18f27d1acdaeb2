//! Worked runs: what whole networks do, event by event, judged and reported. Every expected value
//! was computed by hand.
//!
//! It has only tests: of the events text, of worlds and their judge, of woven lists, of simulations
//! and recordings in which a call fails, and of simulations of a text that is too long. They have a
//! crate of their own, since testing a crate proves all of that crate once more. Texts of events,
//! the states that they lead to, and their pictures are in the scripts of `worked_scripts`; the
//! rows of single layers are in `worked_rows`.
#![tactic(auto)]

#[cfg(test)]
mod tests;
