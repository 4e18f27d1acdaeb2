//! Starts a node from what is stored.
ghost use Rattle.std.specs.Prelude.{◌≡◌, ℕ, ◌<◌, ◌≤◌, List, Ok, Err, IfOk, IfErr, IsTrue, None};
ghost use Rattle.std.specs.Prelude.{Some};
ghost use Rattle.topology.specs.Ranges.{ranges_of};
ghost use Rattle.state_writing.specs.node_core.Site.{site_of};
ghost use Rattle.state_writing.specs.node_core.State.{default_node};
ghost use Rattle.state_writing.specs.node_core.View.{site_in, state_of};
ghost use Rattle.node_state_file.specs.Reading.{decoded, fields_fit, matched};
ghost use Rattle.node_state_file.specs.Stores.{AreStored, Starts};

use crate::fault::FileFault;
use crate::reading::{SavedState, read_file, restore};
use state_writing::{LOADED_BYTES, NodeState, Store, StoreFault};
use std::alloc::{AllocError, Allocator};
use thiserror::Error;
use topology::Net;

/// Why no stored state was used.
#[derive(Clone, Copy, Debug, PartialEq, Eq, Drop, Error)]
pub enum StartFault {
    /// What is stored is not a state of the node.
    #[error("{0}")]
    File(FileFault),
    /// Nothing is stored.
    #[error("Absent")]
    Absent,
    /// The store failed.
    #[error("Device")]
    Device,
}

/// A node at its start.
#[derive(Drop)]
pub struct Started<A: Allocator> {
    /// The state that was stored, or the default state.
    pub state: NodeState<A>,
    /// Why no stored state was used; none if one was.
    pub fault: Option<StartFault>,
}

/// Starts node `id` of a network with the state that is stored, or with the default state if the
/// file or the store has a fault. If memory is refused, there is no node, and it returns
/// `AllocError`.
pub fn start<A: Allocator + Copy, N: Allocator + Copy, S: Store>(
    alloc: A,
    store: &mut S,
    net: &Net<N>,
    id: u16,
) -> Result<Started<A>, AllocError>
    requires { id < net.now.nodes }
    ensures starts { IfOk result (λ started.
        Starts net.now id (S.stored store.old) (S.failures store.old) (S.failures store.new) started.fault (state_of started.state)) }
    ensures site { IfOk result (λ started. site_in started.state ≡ site_of net.now id) }
    ensures stored { S.stored store.new ≡ S.stored store.old }
{
    let read = read_store(store, net, id);
    let mut state = NodeState::new(alloc, net, id)?;
    let fault = match read {
        Ok(saved) => {
            restore(&mut state, net, &saved);
            None
        }
        Err(fault) => Some(fault),
    };
    Ok(Started { state, fault })
}

/// What is stored of node `id`.
fn read_store<N: Allocator + Copy, S: Store>(
    store: &mut S,
    net: &Net<N>,
    id: u16,
) -> Result<SavedState, StartFault>
    ensures ok { IfOk result (λ saved.
        Starts net.now id (S.stored store.old) (S.failures store.old) (S.failures store.new) None
        (matched net.now id saved.header saved.ports.items)) }
    ensures fits { IfOk result
        (λ saved. IsTrue (fields_fit (ranges_of net.now) saved.header saved.ports.items)) }
    ensures err { IfErr result (λ fault.
        Starts net.now id (S.stored store.old) (S.failures store.old) (S.failures store.new)
        (Some fault) (default_node (ranges_of net.now))) }
    ensures stored { S.stored store.new ≡ S.stored store.old }
{
    let mut buffer = [0; LOADED_BYTES];
    match store.load(&mut buffer) {
        Ok(count) => match read_file(&buffer[..count], net, id) {
            Ok(saved) => Ok(saved),
            Err(fault) => Err(StartFault::File(fault)),
        },
        Err(StoreFault::Absent) => Err(StartFault::Absent),
        Err(StoreFault::Device) => Err(StartFault::Device),
    }
}
