//! The network's text, which a node that keeps a record keeps beside it.
ghost use Rattle.std.specs.Prelude.{◌≡◌, IfOk, IsTrue, string_bytes};
ghost use Rattle.process_parts.specs.network_file.NetworkFile.{IsNetworkOf};
ghost use Rattle.topology.specs.Network.{Network};
ghost use Rattle.topology.specs.Change.{is_same_frame};
ghost use Rattle.record_files.specs.Kept.{draft_name};

use node_recorder::network_name;
use process_parts::{network_of, new_file, remove};
use std::alloc::{AllocError, Global};
use std::fs::File;
use std::io::{ErrorKind, Write};
use std::rt::Files;
use std::{fmt, fs, io};
use topology::Net;

/// Those words of a node by which its network is kept.
#[derive(Clone, Copy)]
pub struct KeepWords<'a> {
    /// The network file.
    pub file: &'a str,
    /// The node, less than 64.
    pub id: u16,
    /// The folder.
    pub dir: &'a str,
}

/// Keeps the text of a node's network file in its folder, for `gather`, and returns it. The kept file,
/// DIR/record.toml, is whole at any time: it is first written as DIR/record.toml.ID, a name of the node's
/// own. `net` is the network as the node knows it, which may have other edges.
///
/// # Errors
/// If the network file cannot be read: `InvalidInput` if it is no plain file. If it is now invalid
/// or a different network's, or memory runs out while it is looked at: `InvalidData`. If memory
/// runs out for the names, or its text cannot be written; then what was kept before stays.
pub fn keep_network<R: Files<File = File> + AllocGlobal>(
    rt: &R,
    words: KeepWords<'_>,
    net: &Net,
) -> io::Result<Vec<u8>>
    // It is the text of the node's network, apart from edges.
    ensures { IfOk result (λ text.
        (read : Network) × IsNetworkOf text.items read × IsTrue (is_same_frame read net.now)) }
{
    let text = read_text(rt, words.file)?;
    match network_of(rt.alloc(), text.as_slice()) {
        Ok(read) if read.same_frame(net) => {
            write_text(rt, words, text.as_slice())?;
            Ok(text)
        }
        _ => Err(io::Error::new(ErrorKind::InvalidData, "the network file was changed")),
    }
}

/// The text of a network file.
fn read_text<R: Files + AllocGlobal>(rt: &R, file: &str) -> io::Result<Vec<u8>> {
    // A pipe or a device is not waited for.
    if !fs::metadata(rt, file)?.is_file() {
        return Err(io::Error::new(ErrorKind::InvalidInput, "the network file is no plain file"));
    }
    fs::read(rt, file)
}

/// Writes the text, and leaves no draft if that fails.
fn write_text<R: Files<File = File> + AllocGlobal>(
    rt: &R,
    words: KeepWords<'_>,
    text: &[u8],
) -> io::Result<()> {
    let name = network_name(rt.alloc(), words.dir)?;
    let draft = draft_name(rt.alloc(), words.dir, words.id)?;
    let written = replace(rt, name.as_str(), draft.as_str(), text);
    if written.is_err() {
        let _ = remove(rt, draft.as_str());
    }
    written
}

/// Writes a file's bytes under another name first, so that the file is whole at any time.
fn replace<F: Files<File = File>>(
    files: &F,
    name: &str,
    draft: &str,
    bytes: &[u8],
) -> io::Result<()> {
    new_file(files, draft)?.write_all(bytes)?;
    fs::rename(files, draft, name)
}

/// The name under which node `id` writes the text first.
///
/// # Errors
/// If memory runs out.
fn draft_name(alloc: Global, dir: &str, id: u16) -> Result<String, AllocError>
    ensures { IfOk result (λ name. string_bytes name ≡ draft_name dir.now id) }
{
    let name = network_name(alloc, dir)?;
    format!(in alloc; "{name}.{id}")
}

/// The line which says that the text is not kept.
#[derive(Drop)]
pub struct NotKept<'a> {
    /// The folder.
    pub dir: &'a str,
}

impl fmt::Display for NotKept<'_> {
    ghost use Rattle.std.specs.Prelude.{Some};
    ghost use Rattle.record_files.specs.Kept.{not_kept_line};

    ghost output = { λ line. Some (not_kept_line line.dir.now) };

    fn fmt<W: fmt::Write>(&self, f: &mut fmt::Formatter<W>) -> fmt::Result {
        let dir = self.dir;
        write!(
            f,
            "tokentree: {dir}/record.toml: the network is not kept, so give it to gather by --network; the node runs on"
        )
    }
}
