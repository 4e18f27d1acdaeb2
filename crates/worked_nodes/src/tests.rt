//! The tests, by subject, and what they share.
mod crowd_rows;
mod door_rows;
mod draws;
mod ends;
mod failure_rows;
mod memory_rows;
mod nodes;
mod pace_rows;
mod pipe_rows;
mod plays;
mod replays;
mod restart_rows;
mod stage;
mod wires;
