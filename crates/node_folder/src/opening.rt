//! How the doors of a node that starts are opened: its sockets are made, and it listens at them.
ghost use Rattle.std.specs.Prelude.{◌≡◌, ◌⊎◌, true, IfOk, IfErr};
ghost use Rattle.process_parts.specs.Start.{may_end};
ghost use Rattle.process_parts.specs.declared.fault.NodeFault.TheVariants.{Memory, System};
ghost use Rattle.process_parts.specs.declared.start.StartStage.TheVariants.{Held, Listening};

use crate::doors::ProcessDoors;
use crate::names::NameFiles;
use process_parts::{
    Listeners, NodeFault, NodePaths, NodeWords, StartStage, addresses_of, fault_of, make_sockets,
    warn_of_capacity,
};
use std::net::Net as Sockets;
use std::os::unix::net::SocketAddr;
use std::rt::Files;
use topology::Net;
use unix_doors::UnixDoors;

/// How the doors of a node that starts are opened.
pub trait Opener {
    /// The doors.
    type D: ProcessDoors;

    /// Opens them. Also returns the files of the sockets.
    ///
    /// # Errors
    /// Why it cannot.
    fn open(&self, net: &Net, stage: &mut StartStage) -> Result<(Self::D, NameFiles), NodeFault>
        requires { stage.old ≡ Held }
        ensures ok { IfOk result (λ _. stage.new ≡ Listening) }
        ensures err { IfErr result (λ fault. may_end stage.new fault ≡ true) };
}

/// Doors over sockets in a folder.
#[derive(Drop)]
pub struct FolderOpener<'a, 'w, R> {
    /// The runtime.
    pub rt: &'a R,
    /// What the command line says.
    pub words: &'w NodeWords<'w>,
    /// The names of its files.
    pub paths: &'a NodePaths,
}

impl<'a, R: Files + Sockets + Eprint + AllocGlobal> Opener for FolderOpener<'a, '_, R> {
    type D = UnixDoors<'a, R>;

    fn open(&self, net: &Net, stage: &mut StartStage) -> Result<(Self::D, NameFiles), NodeFault> {
        open_doors(self.rt, self.words, self.paths, net, stage)
    }
}

/// Makes the node's sockets. A child then watches its input; any other node warns here if its
/// links are small.
fn open_doors<'a, R>(
    rt: &'a R,
    words: &NodeWords<'_>,
    paths: &NodePaths,
    net: &Net,
    stage: &mut StartStage,
) -> Result<(UnixDoors<'a, R>, NameFiles), NodeFault>
where
    R: Files + Sockets + Eprint + AllocGlobal,
    requires { stage.old ≡ Held }
    ensures ok { IfOk result (λ _. stage.new ≡ Listening) }
    ensures err { IfErr result (λ fault. may_end stage.new fault ≡ true) }
{
    let addresses = addresses_of(rt.alloc(), words.dir, net.nodes())?;
    match make_sockets(rt, paths, words.rights, stage) {
        Ok(made) => {
            let files = NameFiles {
                links: made.links,
                clients: made.clients,
                looks: made.looks,
            };
            match heedful(rt, words, net, made.listeners, addresses) {
                Ok(doors) => Ok((doors, files)),
                Err(fault) => Err(fault),
            }
        }
        Err(fault) => {
            drop(addresses);
            Err(fault)
        }
    }
}

/// Doors over sockets that listen, which watch the input of a child. Any other node warns here if its
/// links are small.
fn heedful<'a, R: Sockets + Eprint + AllocGlobal>(
    rt: &'a R,
    words: &NodeWords<'_>,
    net: &Net,
    listeners: Listeners,
    addresses: Vec<SocketAddr>,
) -> Result<UnixDoors<'a, R>, NodeFault>
    ensures { IfErr result (λ fault. may_end Listening fault ≡ true) }
{
    let mut doors = make_doors(rt, listeners, addresses)?;
    if !words.is_child {
        warn_of_capacity(rt, net.capacity());
    } else if doors.watch_input().is_err() {
        drop(doors);
        return Err(NodeFault::Input);
    }
    Ok(doors)
}

/// Doors over sockets that listen.
fn make_doors<'a, R: Sockets + AllocGlobal>(
    rt: &'a R,
    listeners: Listeners,
    addresses: Vec<SocketAddr>,
) -> Result<UnixDoors<'a, R>, NodeFault>
    ensures { IfErr result (λ fault. (fault ≡ Memory) ⊎ (fault ≡ System)) }
{
    match UnixDoors::new(rt, rt.alloc(), listeners, addresses) {
        Ok(doors) => Ok(doors),
        Err(error) => Err(fault_of(error.kind())),
    }
}
