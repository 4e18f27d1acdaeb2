//! The signals of this process.
use crate::{SignalState, state_said};
use std::fs;
use std::rt::Files;

/// The state of this process's signals, by `/proc/self/status`. If that cannot be read, it is as if
/// no signal came and none was held back.
pub fn state_now<R: Files + AllocGlobal>(rt: &R) -> SignalState {
    match fs::read(rt, "/proc/self/status") {
        Ok(status) => state_said(status.as_slice()),
        Err(_) => SignalState::unknown(),
    }
}
