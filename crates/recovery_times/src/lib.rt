//! How long a network may take to recover and to lend, from how fast its nodes and links are.
//!
//! After the last fault a network serves within a known number of sweeps. If each node gets its
//! turns, frames arrive and loans end, each window of time holds a sweep. So a number of sweeps is
//! a time. [`Premises`] holds what is believed of the machine, and gives the window and the times.
//! That a window holds a sweep is a law of the crate `processes`.
//!
//! ```
//! let premises = Premises::usual();           // turns each 2.2 ms, 0.1 ms on the way, ..
//! premises.window();                          // 12500 microseconds
//! premises.recovers_within(&net);             // 637500 microseconds for a ring of three
//! micros_of(b"2.2");                          // Some(2200); none of "02.2", "2." and "2.2001"
//! times_text(alloc, &net, &premises)?;        // "window 12.5 ms\n" and two lines more
//! ```
//!
//! Times are whole microseconds. A reader shows them in milliseconds, rounded up, since a bound that
//! is rounded down is no bound.
//!
//! The trap: a window is no measure of how fast a network is. It is what the premises allow at
//! worst.
#![tactic(auto)]

pub mod laws;
mod premises;
mod reading;
mod rounding;
mod text;
mod words;

pub use premises::Premises;
pub use reading::micros_of;
pub use rounding::{millis_up, tenths_up};
pub use text::times_text;
pub use words::{PremiseWords, TimeFault};
