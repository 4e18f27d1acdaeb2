//! Worked rows of damage: state files with a byte changed, stores that fail, memory that is refused
//! at each growth, and schedules that are cut short. Every expected value was computed by hand or by
//! another program.
//!
//! It has only tests: of `node_state_file`, `damage_tool` and `experiments`. They have a crate of
//! their own, since testing a crate proves all of that crate once more. The rows of single layers
//! are in `worked_rows`, those of whole networks in `worked_runs`, and those of damage that a
//! command does or meets in `worked_scripts`.
#![tactic(auto)]

#[cfg(test)]
mod tests;
