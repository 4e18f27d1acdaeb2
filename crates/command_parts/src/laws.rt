//! The law of whatever takes events, for the commands above.
pub use schedules::laws::taking;
