//! Where a node's desk listens, where lookers connect, and which nodes have a desk in a folder.
ghost use Rattle.std.specs.Prelude.{◌≡◌, ◌↔◌, ◌<◌, ℕ, IfOk, IfErr, Some, None, IsSorted, string_bytes};
ghost use Rattle.std.specs.Fs.{dir_entry_name};
ghost use Rattle.std.specs.Iterator.{IsFinite};
ghost use Rattle.std.specs.Ordering.{nat_cmp};
ghost use Rattle.desk_sockets.specs.DeskSockets.{FindsDesks, desk_path, desk_name, look_path};

use line_words::number;
use std::alloc::{AllocError, Global};
use std::fs::DirEntry;
use std::rt::Files;
use std::{fs, io};

/// The path of a node's desk in a folder, `FOLDER/desk-ID.sock`.
///
/// # Errors
/// If memory runs out.
pub fn desk_path(alloc: Global, folder: &str, node: u16) -> Result<String, AllocError>
    ensures { IfOk result (λ path. string_bytes path ≡ desk_path folder.now node) }
{
    format!(in alloc; "{folder}/desk-{node}.sock")
}

/// The path of the socket in a folder at which a node shows how it stands, `FOLDER/look-ID.sock`.
///
/// # Errors
/// If memory runs out.
pub fn look_path(alloc: Global, folder: &str, node: u16) -> Result<String, AllocError>
    ensures { IfOk result (λ path. string_bytes path ≡ look_path folder.now node) }
{
    format!(in alloc; "{folder}/look-{node}.sock")
}

/// The node whose desk has a file of this name, if it is a desk's.
pub fn node_of(name: &[u8]) -> Option<u16>
    ensures { (node : ℕ) → (result ≡ Some node) ↔ ((node < 65536) × (name.now ≡ desk_name node)) }
{
    line_words::laws::one_spelling();
    number(name.strip_prefix(b"desk-")?.strip_suffix(b".sock")?)
}

/// The nodes that have a socket of their desk in a folder, by ascending id. Only names count: a
/// file of another kind with such a name is taken for a socket, and an entry that cannot be read is
/// left out.
///
/// # Errors
/// The system's, if the folder cannot be read; `OutOfMemory`, if memory runs out.
pub fn nodes_in<R: Files + AllocGlobal>(rt: &R, folder: &str) -> io::Result<Vec<u16>>
    // No contract can say what a folder holds. `nodes_among` says what is made of its entries.
    ensures { IfOk result (λ nodes. IsSorted nat_cmp nodes.items) }
{
    Ok(nodes_among(rt.alloc(), fs::read_dir(&rt, folder)?)?)
}

/// The nodes whose desks are among these entries of a folder, by ascending id.
///
/// # Errors
/// If memory runs out.
fn nodes_among<F: Files + Drop, I: Iterator<Item = io::Result<DirEntry<F>>>>(
    alloc: Global,
    entries: I,
) -> Result<Vec<u16>, AllocError>
    requires can { I.can_next entries }
    requires ends { IsFinite (I.remaining entries) }
    ensures { IfOk result (λ nodes. FindsDesks I.next_gives entries nodes.items) }
{
    let mut nodes = Vec::new(alloc);
    for entry in entries {
        if let Some(node) = node_at(entry) {
            nodes.push(node)?;
        }
    }
    nodes.sort_unstable();
    Ok(nodes)
}

/// The node whose desk this entry of a folder is, if it is a desk's. An entry whose name is no text is no
/// desk's.
fn node_at<F: Files + Drop>(entry: io::Result<DirEntry<F>>) -> Option<u16>
    ensures named { IfOk entry (λ entry. (node : ℕ)
        → (result ≡ Some node) ↔ ((node < 65536) × (dir_entry_name entry ≡ desk_name node))) }
    ensures unnamed { IfErr entry (λ _. result ≡ None) }
{
    node_of(entry.ok()?.file_name().as_bytes())
}
