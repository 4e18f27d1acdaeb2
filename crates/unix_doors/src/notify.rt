//! Reports to the service manager that started this process that the process is ready: in one datagram, by
//! `socket` and `sendto` of the C library, since the kit has no Unix datagram sockets.
ghost use Rattle.std.specs.Prelude.{◌≡◌, ◌≤◌, ◌+◌, None, IfSome, length};

use libc::close;
use libc::net::{_SS_SIZE, AF_UNIX, MSG_NOSIGNAL, SOCK_CLOEXEC, SOCK_DGRAM, sendto, socket};
use std::env;
use std::rt::Env;

/// The most bytes of the name of a Unix socket.
const LONGEST_NAME: usize = 107;

/// A socket for datagrams, which no process that is started from this one inherits.
const DATAGRAMS: i32 = SOCK_DGRAM | SOCK_CLOEXEC;

/// What is said to the manager.
const READY: &[u8] = b"READY=1";

/// Reports to the socket that `NOTIFY_SOCKET` names, if there is one, that this process is ready. A socket
/// that takes nothing is passed over: the manager then waits, and says so.
pub fn tell_ready<R: Env + AllocGlobal>(rt: &R) {
    let mut address = [0; _SS_SIZE];
    if let Ok(name) = env::var(rt, "NOTIFY_SOCKET")
        && let Some(length) = write_address(name.as_str(), &mut address)
    {
        send(&address, length, READY);
    }
}

/// Writes the address of a Unix socket over zeroes, and returns how many of its bytes count. The name is a
/// path, or an abstract name, which begins with `@`. If it is neither, or too long, the result is none, and
/// nothing is written.
fn write_address(name: &str, address: &mut [u8; _SS_SIZE]) -> Option<u32>
    ensures length { IfSome result (λ count. (count ≤ 109) × (count ≡ length name.now + 2)) }
    ensures nothing { result ≡ None → address.new ≡ address.old }
{
    let bytes = name.as_bytes();
    let is_abstract = matches!(bytes, [b'@', ..]);
    if bytes.len() > LONGEST_NAME || !(is_abstract || matches!(bytes, [b'/', ..])) {
        return None;
    }
    address[0] = AF_UNIX as u8;
    address[2..2 + bytes.len()].copy_from_slice(bytes);
    if is_abstract {
        address[2] = 0;
    }
    Some(bytes.len() as u32 + 2)
}

/// Sends a datagram to the Unix socket of an address, and waits for no answer.
fn send(address: &[u8; _SS_SIZE], length: u32, bytes: &[u8])
    requires { length ≤ 109 }
{
    let socket = unsafe { socket(AF_UNIX, DATAGRAMS, 0) };
    if socket < 0 {
        return;
    }
    let _ = unsafe { sendto(socket, bytes, MSG_NOSIGNAL, address, length) };
    let _ = close(socket);
}
