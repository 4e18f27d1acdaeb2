//! Whether the file that a name leads to is still the one that was made.
ghost use Rattle.std.specs.Prelude.{◌≡◌};
ghost use Rattle.node_keeping.specs.Sight.{file_sight};

use std::io::ErrorKind;

/// Which file it is, for as long as it is open: no two open files of a system have the same device
/// and inode. A node keeps its lock file and sockets open, so no other file gets their inodes. In a
/// folder that is another node's it ends and removes nothing: the sockets and the stop file there
/// are not its own.
#[derive(Clone, Copy)]
pub struct FileId {
    /// The device that it is on.
    pub device: u64,
    /// Its number there.
    pub inode: u64,
}

/// What a name of a node's file leads to.
#[derive(Clone, Copy)]
pub enum FileSight {
    /// The file that the node made or locked.
    Own,
    /// Nothing, or another file.
    NotOwn,
    /// The system does not say.
    Unseen,
}

/// What a name leads to, by what the system said about it.
pub fn sight_of(own: FileId, found: Result<FileId, ErrorKind>) -> FileSight
    ensures { result ≡ file_sight own found }
{
    match found {
        Ok(id) if id.device == own.device && id.inode == own.inode => FileSight::Own,
        Ok(_) => FileSight::NotOwn,
        Err(ErrorKind::NotFound) => FileSight::NotOwn,
        Err(ErrorKind::NotADirectory) => FileSight::NotOwn,
        Err(_) => FileSight::Unseen,
    }
}
