//! The tests, by subject, and what they share.
mod copies;
mod damaged;
mod full;
mod memory;
mod ran;
mod sameness;
mod steps;
