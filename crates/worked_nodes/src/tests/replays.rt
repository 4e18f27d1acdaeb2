//! Replays of what nodes did in their turns.
pub mod account;
pub mod desk;
mod replay;
mod rows;
mod runs;
