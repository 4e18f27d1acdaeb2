//! The folder of a network: it is made if it is missing, and a node takes its place in it.
ghost use Rattle.std.specs.Prelude.{◌≡◌, ◌<◌, ◌≤◌, ◌⊎◌, ◌+◌, None, IfOk, IfErr, is_ok, true, length};
ghost use Rattle.node_keeping.specs.node_texts.Names.{longest_socket_name};
ghost use Rattle.process_parts.specs.declared.fault.NodeFault.TheVariants.{LongName, Memory};
ghost use Rattle.process_parts.specs.declared.fault.NodeFault.TheVariants.{Folder, RightsStay, Lock, Running};
ghost use Rattle.process_parts.specs.declared.fault.NodeFault.TheVariants.{Links, Clients, Looks};
ghost use Rattle.process_parts.specs.declared.start.StartStage.TheVariants.{Checked, Entered, Held};
ghost use Rattle.process_parts.specs.declared.start.StartStage.TheVariants.{Listening};

use crate::fault::NodeFault;
use crate::rights::Rights;
use crate::start::StartStage;
use mio::net::UnixListener;
use node_keeping::{
    FileId, FileSight, LONGEST_SOCKET_NAME, NodePaths, links_name, longest_socket_name, sight_of,
};
use std::alloc::Global;
use std::fs::{DirBuilder, File, Metadata, OpenOptions, Permissions};
use std::io::ErrorKind;
use std::net::Net;
use std::os::unix::fs::{DirBuilderExt, MetadataExt, OpenOptionsExt, PermissionsExt};
use std::os::unix::net::SocketAddr;
use std::rt::Files;
use std::{fs, io};
use unix_ends::Listeners;

/// The mode of a file that is made here: only its owner may open it.
const FILE_MODE: u32 = 0o600;

/// Checks that in this folder no socket of a network of this many nodes would have too long a name.
///
/// # Errors
/// `LongName`, or `Memory`.
pub fn check_names(alloc: Global, dir: &str, nodes: u16) -> Result<(), NodeFault>
    ensures ok { IfOk result (λ _. length (longest_socket_name dir.now nodes) ≤ 107) }
    ensures err { IfErr result (λ fault. (fault ≡ Memory)
        ⊎ ((fault ≡ LongName) × (107 < length (longest_socket_name dir.now nodes)))) }
{
    if longest_socket_name(alloc, dir, nodes)? > LONGEST_SOCKET_NAME {
        return Err(NodeFault::LongName);
    }
    Ok(())
}

/// Makes the folder with these rights if it is missing, but makes no folder above it. If the group
/// gets rights, these are set for a folder that is already there, too.
///
/// # Errors
/// `Folder` if there is none and none can be made; `RightsStay` if its rights cannot be set.
pub fn make_folder<F: Files>(
    files: &F,
    dir: &str,
    rights: Rights,
    stage: &mut StartStage,
) -> Result<(), NodeFault>
    requires { stage.old ≡ Checked }
    ensures ok { IfOk result (λ _. stage.new ≡ Entered) }
    ensures err { IfErr result
        (λ fault. ((fault ≡ Folder) ⊎ (fault ≡ RightsStay)) × (stage.new ≡ Checked)) }
{
    let made = DirBuilder::new().mode(rights.folder()).create(files, dir);
    if made.is_err() && !is_folder(files, dir) {
        return Err(NodeFault::Folder);
    }
    if rights == Rights::GroupLocks && set_mode(files, dir, Some(rights.folder())).is_err() {
        return Err(NodeFault::RightsStay);
    }
    *stage = StartStage::Entered;
    Ok(())
}

/// Sets the mode of a file, if one is given.
pub fn set_mode<F: Files>(files: &F, path: &str, mode: Option<u32>) -> io::Result<()>
    ensures { mode ≡ None → is_ok result ≡ true }
{
    match mode {
        Some(mode) => fs::set_permissions(files, path, Permissions::from_mode(mode)),
        None => Ok(()),
    }
}

/// Whether there is such a folder.
fn is_folder<F: Files>(files: &F, dir: &str) -> bool {
    match fs::metadata(files, dir) {
        Ok(found) => found.is_dir(),
        Err(_) => false,
    }
}

/// A process's place in a folder: a file that is locked as long as this value lives. However the
/// process ends, the system then unlocks the file.
#[derive(Drop)]
pub struct FolderPlace {
    _file: File,
    id: FileId,
}

impl FolderPlace {
    /// Whether the name of the place still leads to it. If not, another process may hold the place
    /// of that name.
    pub fn sight<F: Files>(&self, files: &F, path: &str) -> FileSight {
        sight(self.id, fs::metadata(files, path))
    }
}

/// Takes the place of this name, and makes its file if it is missing.
///
/// # Errors
/// `Running` if another process holds it, `Lock` if it cannot be opened or locked.
pub fn hold_place<F: Files<File = File>>(
    files: &F,
    path: &str,
    stage: &mut StartStage,
) -> Result<FolderPlace, NodeFault>
    requires { stage.old ≡ Entered }
    ensures ok { IfOk result (λ _. stage.new ≡ Held) }
    ensures err { IfErr result (λ fault. ((fault ≡ Lock) ⊎ (fault ≡ Running))
        × (stage.new ≡ Entered)) }
{
    let Ok(file) = open_place(files, path) else {
        return Err(NodeFault::Lock);
    };
    let Ok(found) = file.metadata() else {
        return Err(NodeFault::Lock);
    };
    match file.try_lock() {
        Ok(()) => {}
        Err(fs::TryLockError::WouldBlock) => return Err(NodeFault::Running),
        Err(_) => return Err(NodeFault::Lock),
    }
    *stage = StartStage::Held;
    let id = id_of(&found);
    Ok(FolderPlace { _file: file, id })
}

/// Opens the file of a place, or makes it.
fn open_place<F: Files<File = File>>(files: &F, path: &str) -> io::Result<File> {
    OpenOptions::new()
        .write(true)
        .create(true)
        .mode(FILE_MODE)
        .open(files, path)
}

/// The id of the file that has this metadata.
fn id_of(found: &Metadata) -> FileId {
    FileId {
        device: found.dev(),
        inode: found.ino(),
    }
}

/// What a socket's name leads to. A symbolic link is no socket.
pub fn sight_at<F: Files>(files: &F, path: &str, own: FileId) -> FileSight {
    sight(own, fs::symlink_metadata(files, path))
}

/// What a name leads to, by what the system says about it.
fn sight(own: FileId, found: io::Result<Metadata>) -> FileSight {
    match found {
        Ok(found) => sight_of(own, Ok(id_of(&found))),
        Err(error) => sight_of(own, Err(error.kind())),
    }
}

/// A listening socket, and the file that its name led to when it was made.
#[derive(Drop)]
pub struct Listener {
    /// The socket.
    pub socket: UnixListener,
    /// Its file.
    pub file: FileId,
}

/// The listening sockets of a node, and their files.
#[derive(Drop)]
pub struct NodeSockets {
    /// The sockets.
    pub listeners: Listeners,
    /// The file of the socket for neighbours.
    pub links: FileId,
    /// The file of the socket for clients.
    pub clients: FileId,
    /// The file of the socket for whoever looks.
    pub looks: FileId,
}

/// Makes the sockets of a node whose place is held: for neighbours, for clients and for whoever
/// looks. They replace files that were left there.
///
/// # Errors
/// `Links`, `Clients` or `Looks`.
pub fn make_sockets<R: Files + Net>(
    rt: &R,
    paths: &NodePaths,
    rights: Rights,
    stage: &mut StartStage,
) -> Result<NodeSockets, NodeFault>
    requires { stage.old ≡ Held }
    ensures ok { IfOk result (λ _. stage.new ≡ Listening) }
    ensures err { IfErr result (λ fault. ((fault ≡ Links) ⊎ ((fault ≡ Clients) ⊎ (fault ≡ Looks)))
        × (stage.new ≡ Held)) }
{
    let (own, of_clients) = (rights.own(), rights.clients());
    let links = bound(rt, paths.links.as_str(), own, NodeFault::Links)?;
    let clients = bound(rt, paths.clients.as_str(), of_clients, NodeFault::Clients)?;
    let looks = bound(rt, paths.looks.as_str(), own, NodeFault::Looks)?;
    *stage = StartStage::Listening;
    Ok(joined(links, clients, looks))
}

/// A socket as [`bind_again`] makes it, or this fault.
fn bound<R: Files + Net>(
    rt: &R,
    path: &str,
    mode: Option<u32>,
    fault: NodeFault,
) -> Result<Listener, NodeFault>
    ensures { IfErr result (λ given. given ≡ fault) }
{
    match bind_again(rt, path, mode) {
        Ok(listener) => Ok(listener),
        Err(_) => Err(fault),
    }
}

/// The sockets of a node.
fn joined(links: Listener, clients: Listener, looks: Listener) -> NodeSockets {
    NodeSockets {
        links: links.file,
        clients: clients.file,
        looks: looks.file,
        listeners: Listeners {
            links: links.socket,
            clients: clients.socket,
            looks: looks.socket,
        },
    }
}

/// A socket of this name, and of this mode if one is given. It replaces a file of that name.
///
/// The mode is set after `bind`, since the kit has no `umask`. Until then the folder is closed to
/// others. Under a mask that lets the group write, the group could open the socket for some
/// microseconds; the unit's mask is 0077.
///
/// # Errors
/// If whatever has this name cannot be removed (a folder, say), or the system makes no socket.
pub fn bind_again<R: Files + Net>(rt: &R, path: &str, mode: Option<u32>) -> io::Result<Listener> {
    remove(rt, path)?;
    let socket = UnixListener::bind(rt, path)?;
    set_mode(rt, path, mode)?;
    let file = id_of(&fs::symlink_metadata(rt, path)?);
    Ok(Listener { socket, file })
}

/// Removes a file, if it is there.
pub fn remove<F: Files>(files: &F, path: &str) -> io::Result<()> {
    match fs::remove_file(files, path) {
        Err(error) if error.kind() != ErrorKind::NotFound => Err(error),
        _ => Ok(()),
    }
}

/// The addresses of all nodes of a network, by their ids.
///
/// # Errors
/// `LongName`, or `Memory`.
pub fn addresses_of(alloc: Global, dir: &str, nodes: u16) -> Result<Vec<SocketAddr>, NodeFault>
    ensures count { IfOk result (λ addresses. length addresses.items ≡ nodes) }
    ensures err { IfErr result (λ fault. (fault ≡ LongName) ⊎ (fault ≡ Memory)) }
{
    let mut addresses = Vec::with_capacity(alloc, usize::from(nodes))?;
    push_addresses(&mut addresses, alloc, dir, nodes)?;
    Ok(addresses)
}

/// Adds the addresses of this many nodes.
fn push_addresses(
    addresses: &mut Vec<SocketAddr>,
    alloc: Global,
    dir: &str,
    nodes: u16,
) -> Result<(), NodeFault>
    ensures count { IfOk result (λ _. length addresses.new.items
        ≡ length addresses.old.items + nodes) }
    ensures err { IfErr result (λ fault. (fault ≡ LongName) ⊎ (fault ≡ Memory)) }
{
    for id in 0..nodes {
        let address = address_of(alloc, dir, id)?;
        if addresses.push(address).is_err() {
            return Err(NodeFault::Memory);
        }
    }
    Ok(())
}

/// The address of node `id`.
fn address_of(alloc: Global, dir: &str, id: u16) -> Result<SocketAddr, NodeFault>
    ensures { IfErr result (λ fault. (fault ≡ LongName) ⊎ (fault ≡ Memory)) }
{
    let name = links_name(alloc, dir, id)?;
    match SocketAddr::from_pathname(name.as_str()) {
        Ok(address) => Ok(address),
        Err(_) => Err(NodeFault::LongName),
    }
}

/// A new file of this name, for its owner alone. It replaces a plain file that was there. Anything
/// else of that name stays; a symbolic link is not followed.
///
/// # Errors
/// If something else has that name, or the system makes no file.
pub fn new_file<F: Files<File = File>>(files: &F, path: &str) -> io::Result<File> {
    make_way(files, path)?;
    OpenOptions::new()
        .write(true)
        .create_new(true)
        .mode(FILE_MODE)
        .open(files, path)
}

/// Removes a plain file of this name, if it is there. Anything else of that name stays.
///
/// # Errors
/// If something else has that name, or the system does not remove the file.
fn make_way<F: Files>(files: &F, path: &str) -> io::Result<()> {
    match fs::symlink_metadata(files, path) {
        Ok(found) if found.is_file() => fs::remove_file(files, path),
        Ok(_) => Err(io::Error::new(ErrorKind::InvalidInput, "it is no plain file")),
        Err(error) if error.kind() == ErrorKind::NotFound => Ok(()),
        Err(error) => Err(error),
    }
}

/// Opens a plain file that is there, and cuts it off after `length` bytes. What is written to it
/// goes to its end. A symbolic link is not followed.
///
/// # Errors
/// If it is not a plain file, has fewer bytes, or the system does not open or cut it.
pub fn file_up_to<F: Files<File = File>>(files: &F, path: &str, length: u64) -> io::Result<File> {
    check_length(files, path, length)?;
    let file = OpenOptions::new().append(true).open(files, path)?;
    file.set_len(length)?;
    Ok(file)
}

/// Checks that this is a plain file with at least this many bytes.
///
/// # Errors
/// If it is not, or if the system does not say.
fn check_length<F: Files>(files: &F, path: &str, length: u64) -> io::Result<()> {
    let found = fs::symlink_metadata(files, path)?;
    if !found.is_file() || found.len() < length {
        return Err(io::Error::new(ErrorKind::InvalidData, "it was changed"));
    }
    Ok(())
}
