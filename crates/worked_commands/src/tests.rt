//! The tests, by subject, and what they share.
mod measure;
mod nets;
mod network;
mod output;
mod plots;
mod simulate;
