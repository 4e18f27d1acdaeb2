//! A node's place in its folder: its words are checked, the folder is made, and the place in it is taken.
ghost use Rattle.std.specs.Prelude.{◌≡◌, ◌<◌, ◌≤◌, true, IfOk, IfErr};
ghost use Rattle.process_parts.specs.Start.{may_end};
ghost use Rattle.process_parts.specs.declared.fault.NodeFault.TheVariants.{NoNode};
ghost use Rattle.process_parts.specs.declared.start.StartStage.TheVariants.{Begun, Checked, Held};

use process_parts::{
    FolderPlace, NodeFault, NodePaths, NodeWords, StartStage, check_names, hold_place, make_folder,
    read_network,
};
use std::alloc::Global;
use std::fs::File;
use std::rt::Files;
use topology::Net;

/// Reads the network. Fails if the file is invalid, the id is no node's, or the name of the folder
/// is too long.
///
/// # Errors
/// Which of these it is, or that memory ran out; then nothing is made.
pub fn check_words<R: Files + AllocGlobal>(
    rt: &R,
    words: &NodeWords<'_>,
    stage: &mut StartStage,
) -> Result<Net, NodeFault>
    requires { stage.old ≡ Begun }
    ensures ok { IfOk result (λ net. (words.now.id < net.nodes) × (stage.new ≡ Checked)) }
    ensures err { IfErr result (λ fault. (may_end Begun fault ≡ true) × (stage.new ≡ Begun)) }
{
    match read_network(rt, words.file) {
        Ok(net) => match check_place(rt.alloc(), words, &net) {
            Ok(()) => {
                *stage = StartStage::Checked;
                Ok(net)
            }
            Err(fault) => {
                drop(net);
                Err(fault)
            }
        },
        Err(fault) => Err(NodeFault::Network(fault)),
    }
}

/// Fails if the id is no node's of this network, or the name of the folder is too long for its nodes.
fn check_place(alloc: Global, words: &NodeWords<'_>, net: &Net) -> Result<(), NodeFault>
    ensures ok { IfOk result (λ _. words.now.id < net.now.nodes) }
    ensures err { IfErr result (λ fault. may_end Begun fault ≡ true) }
{
    check_id(words.id, net)?;
    check_names(alloc, words.dir, net.nodes())
}

/// Fails if the id is no node's.
fn check_id(id: u16, net: &Net) -> Result<(), NodeFault>
    ensures ok { IfOk result (λ _. id < net.now.nodes) }
    ensures err { IfErr result (λ fault. (fault ≡ NoNode net.now.nodes) × (net.now.nodes ≤ id)) }
{
    if id < net.nodes() {
        Ok(())
    } else {
        Err(NodeFault::NoNode(net.nodes()))
    }
}

/// Makes the folder, and takes the node's place in it.
///
/// # Errors
/// Why it cannot.
pub fn take_place<R: Files<File = File> + AllocGlobal>(
    rt: &R,
    words: &NodeWords<'_>,
    stage: &mut StartStage,
) -> Result<(NodePaths, FolderPlace), NodeFault>
    requires { stage.old ≡ Checked }
    ensures ok { IfOk result (λ _. stage.new ≡ Held) }
    ensures err { IfErr result (λ fault. may_end stage.new fault ≡ true) }
{
    make_folder(rt, words.dir, words.rights, stage)?;
    let paths = NodePaths::new(rt.alloc(), words.dir, words.id)?;
    match hold_place(rt, paths.lock.as_str(), stage) {
        Ok(place) => Ok((paths, place)),
        Err(fault) => {
            drop(paths);
            Err(fault)
        }
    }
}

/// Where a node's process runs, and by which words.
#[derive(Clone, Copy)]
pub struct Seat<'a, 'w> {
    /// What the command line says.
    pub words: &'w NodeWords<'w>,
    /// The names of its files.
    pub paths: &'a NodePaths,
    /// Its place in the folder, which is held.
    pub place: &'a FolderPlace,
}
