//! Worked rows of records: entries as bytes, cut at every place, and with bytes changed; frames that
//! are noted again; records read a page at a time; and the order of the steps of many nodes. Every
//! expected value was computed by hand.
//!
//! It has only tests, of `flight_records`, `record_pages` and `record_order`. They have a crate of their own,
//! since testing a crate proves all of that crate once more.
#![tactic(auto)]

#[cfg(test)]
mod tests;
