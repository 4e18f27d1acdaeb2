//! The network of a file.
ghost use Rattle.std.specs.Prelude.{◌≤◌, IfOk, IfErr, length};
ghost use Rattle.network_file.specs.NetworkFile.{IsNetworkOf, IsRefusedFor};

use crate::fault::NetworkFault;
use std::alloc::Global;
use std::io::{ErrorKind, Read};
use std::rt::Files;
use std::{fs, io};
use topology::{Net, NetFault};

/// The most bytes that a network file may have.
pub const MOST_BYTES: u64 = 1_048_576;

/// Reads the network of a file.
///
/// # Errors
/// [`NetworkFault::Unreadable`] if the file cannot be read, is a folder, a pipe or a device, or has
/// more than 1,048,576 bytes. [`NetworkFault::Refused`] if memory runs out, if the bytes are not
/// UTF-8, and so not TOML, or if the text is invalid.
pub fn read_network<R: Files + AllocGlobal>(rt: &R, path: &str) -> Result<Net, NetworkFault> {
    match bytes_of(rt, path) {
        Ok(bytes) => network_of(rt.alloc(), bytes.as_slice()),
        Err(error) => Err(match error.kind() {
            ErrorKind::OutOfMemory => NetworkFault::Refused(NetFault::Memory),
            _ => NetworkFault::Unreadable,
        }),
    }
}

/// The bytes of a file; of a large one only the first ones, one more than a network file may have.
fn bytes_of<R: Files + AllocGlobal>(rt: &R, path: &str) -> io::Result<Vec<u8>> {
    // This does not wait for a pipe or a device.
    if !fs::metadata(rt, path)?.is_file() {
        return Err(io::Error::from(ErrorKind::InvalidInput));
    }
    let mut bytes = Vec::new(rt.alloc());
    fs::open(rt, path)?
        .take(MOST_BYTES + 1)
        .read_to_end(&mut bytes)?;
    Ok(bytes)
}

/// The network of the bytes of a file.
///
/// # Errors
/// [`NetworkFault::Unreadable`] if there are more than 1,048,576 bytes. Else
/// [`NetworkFault::Refused`], with `NotToml` if they are not UTF-8, or with the fault of the text.
pub fn network_of(alloc: Global, bytes: &[u8]) -> Result<Net, NetworkFault>
    ensures ok { IfOk result (IsNetworkOf bytes.now) }
    ensures err { IfErr result (IsRefusedFor bytes.now) }
{
    if bytes.len() as u64 > MOST_BYTES {
        return Err(NetworkFault::Unreadable);
    }
    let Ok(text) = std::str::from_utf8(bytes) else {
        return Err(NetworkFault::Refused(NetFault::NotToml));
    };
    Net::read(alloc, text).map_err(NetworkFault::Refused)
}
