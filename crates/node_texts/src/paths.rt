//! The names of a node's files.
ghost use Rattle.std.specs.Prelude.{◌≡◌, IfOk, string_bytes, codes, length};
ghost use Rattle.node_texts.specs.Names.{AreFiles, AreNamed, AreSockets, file_name, longest_socket_name};

use std::alloc::{AllocError, Global};

/// The most bytes that the name of a Unix socket may have, with its folder.
pub const LONGEST_SOCKET_NAME: usize = 107;

/// The names of the files of one node, each with its folder.
#[derive(Drop)]
pub struct NodePaths {
    /// The node's state.
    pub state: String,
    /// The socket at which the neighbours of greater ids connect.
    pub links: String,
    /// The socket at which clients connect.
    pub clients: String,
    /// The socket at which whoever looks at the node connects.
    pub looks: String,
    /// The file that ends the node.
    pub stop: String,
    /// The file that the node holds locked while it runs.
    pub lock: String,
}

impl NodePaths {
    /// The names of the files of node `id` in a folder.
    ///
    /// # Errors
    /// If memory runs out.
    pub fn new(alloc: Global, dir: &str, id: u16) -> Result<NodePaths, AllocError>
        ensures { IfOk result (AreNamed dir.now id) }
    {
        let SocketNames {
            links,
            clients,
            looks,
        } = SocketNames::new(alloc, dir, id)?;
        let FileNames { state, stop, lock } = FileNames::new(alloc, dir, id)?;
        Ok(NodePaths {
            state,
            links,
            clients,
            looks,
            stop,
            lock,
        })
    }
}

/// The names of the sockets of one node.
#[derive(Drop)]
struct SocketNames {
    /// Where the neighbours of greater ids connect.
    links: String,
    /// Where clients connect.
    clients: String,
    /// Where whoever looks at the node connects.
    looks: String,
}

impl SocketNames {
    /// The names of the sockets of node `id` in a folder.
    fn new(alloc: Global, dir: &str, id: u16) -> Result<SocketNames, AllocError>
        ensures { IfOk result (AreSockets dir.now id) }
    {
        Ok(SocketNames {
            links: links_name(alloc, dir, id)?,
            clients: file_name(alloc, dir, "desk-", id, ".sock")?,
            looks: file_name(alloc, dir, "look-", id, ".sock")?,
        })
    }
}

/// The names of a node's files that are not sockets.
#[derive(Drop)]
struct FileNames {
    /// The node's state.
    state: String,
    /// The file that ends the node.
    stop: String,
    /// The file that the node holds locked.
    lock: String,
}

impl FileNames {
    /// The names of these files of node `id` in a folder.
    fn new(alloc: Global, dir: &str, id: u16) -> Result<FileNames, AllocError>
        ensures { IfOk result (AreFiles dir.now id) }
    {
        Ok(FileNames {
            state: file_name(alloc, dir, "state-", id, ".tkt")?,
            stop: file_name(alloc, dir, "stop-", id, "")?,
            lock: file_name(alloc, dir, "lock-", id, "")?,
        })
    }
}

/// The name of the socket at which neighbours connect to node `id`.
///
/// # Errors
/// If memory runs out.
pub fn links_name(alloc: Global, dir: &str, id: u16) -> Result<String, AllocError>
    ensures { IfOk result
        (λ name. string_bytes name ≡ file_name dir.now (codes "node-") id (codes ".sock")) }
{
    file_name(alloc, dir, "node-", id, ".sock")
}

/// The name of a node's file, with its folder.
fn file_name(
    alloc: Global,
    dir: &str,
    before: &str,
    id: u16,
    after: &str,
) -> Result<String, AllocError>
    ensures { IfOk result
        (λ name. string_bytes name ≡ file_name dir.now before.now id after.now) }
{
    format!(in alloc; "{dir}/{before}{id}{after}")
}

/// How many bytes the longest name of a socket in a folder has in a network of this many nodes.
///
/// # Errors
/// If memory runs out.
pub fn longest_socket_name(alloc: Global, dir: &str, nodes: u16) -> Result<usize, AllocError>
    ensures { IfOk result (λ bytes. bytes ≡ length (longest_socket_name dir.now nodes)) }
{
    let name = links_name(alloc, dir, nodes.saturating_sub(1))?;
    Ok(name.len())
}
