//! The standard streams. Some of them may be closed when the program starts.

use std::fs;
use std::fs::File;
use std::os::fd::{AsRawFd, IntoRawFd};
use std::rt::Files;

/// The descriptor of standard error, the last of the standard streams.
const STANDARD_ERROR: i32 = 2;

/// Opens the null device for each standard stream that is closed. Else the next file or socket that
/// is opened would be that stream, and would be written to in its place.
///
/// The device is opened for reading alone. So a write to a stream that was closed still fails, and
/// its input is at its end. It stays open for as long as the program runs. Call this before
/// anything is opened.
pub(crate) fn fill_standard_streams<R: Files<File = File>>(rt: &R) {
    for _ in 0..=STANDARD_ERROR {
        let Ok(device) = fs::open(rt, "/dev/null") else {
            return;
        };
        if device.as_raw_fd() > STANDARD_ERROR {
            return;
        }
        let _ = device.into_raw_fd();
    }
}
