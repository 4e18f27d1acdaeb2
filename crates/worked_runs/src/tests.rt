//! The tests, by subject, and what they share.
mod events;
mod judged;
mod no_memory;
mod recorded;
mod simulated;
mod texts;
mod worlds;
mod woven;
