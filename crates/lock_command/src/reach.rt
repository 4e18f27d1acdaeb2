//! How a desk is reached, or why it is not.
ghost use Rattle.std.specs.Prelude.{◌≡◌, IfOk, IfErr};
ghost use Rattle.lock_command.specs.Reaching.{IsUnreached, unreached_notice};

use crate::desk::DeskConnection;
use crate::notice::Notice;
use desk_sockets::desk_path;
use std::io::ErrorKind;
use std::net::Net;
use std::rt::{Clock, Files};
use std::time::Duration;
use std::{fs, thread};

/// How many times a connection is tried if too many wait to be accepted.
const TRIES: u32 = 500;

/// How many milliseconds pass between two such tries.
const BETWEEN_TRIES: u64 = 10;

/// Connects to the desk of a node in a folder.
///
/// # Errors
/// Why there is no connection.
pub fn reach<'a, R: Net + Files + Clock + AllocGlobal>(
    rt: &R,
    folder: &'a str,
    node: u16,
) -> Result<DeskConnection, Notice<'a>>
    ensures desk { IfOk result (λ desk. desk.node ≡ node) }
    ensures why { IfErr result (λ notice. IsUnreached folder.entry node notice) }
{
    let Ok(path) = desk_path(rt.alloc(), folder, node) else {
        return Err(Notice::Memory);
    };
    match connect(rt, path.as_str(), node) {
        Ok(desk) => Ok(desk),
        Err(kind) => {
            let has_folder = fs::metadata(rt, folder).is_ok_and(|about| about.is_dir());
            Err(why_not(kind, has_folder, folder, node))
        }
    }
}

/// Connects to this socket. If too many wait to be accepted, tries again for at most five seconds.
fn connect<R: Net + Clock>(rt: &R, path: &str, node: u16) -> Result<DeskConnection, ErrorKind>
    ensures { IfOk result (λ desk. desk.node ≡ node) }
{
    for _ in 0..TRIES {
        match DeskConnection::connect(rt, path, node) {
            Ok(desk) => return Ok(desk),
            Err(error) if error.kind() == ErrorKind::WouldBlock => {
                thread::sleep(rt, Duration::from_millis(BETWEEN_TRIES));
            }
            Err(error) => return Err(error.kind()),
        }
    }
    Err(ErrorKind::WouldBlock)
}

/// Why a desk is not reached, by the system's answer and whether the folder is there.
fn why_not<'a>(kind: ErrorKind, has_folder: bool, folder: &'a str, node: u16) -> Notice<'a>
    ensures { result ≡ unreached_notice kind has_folder folder.entry node }
{
    match kind {
        ErrorKind::WouldBlock => Notice::NoService(node),
        ErrorKind::InvalidInput => Notice::TooLong { folder, node },
        ErrorKind::PermissionDenied => Notice::Forbidden(folder),
        // Std has this kind for a process that has no descriptor left.
        ErrorKind::Uncategorized => Notice::System,
        _ if has_folder => Notice::NoNode { folder, node },
        _ => Notice::NoFolder(folder),
    }
}
