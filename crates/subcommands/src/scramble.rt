//! `scramble FILE ID PATH SEED`: the state file of a node as a fault may leave it.
ghost use Rattle.std.specs.Prelude.{◌≡◌, ◌<◌, ◌≤◌, IfOk, IfErr, nat_lt, if◌then◌else◌, take};
ghost use Rattle.command_parts.specs.command_faults.Ends.{DoneMeansZero};
ghost use Rattle.node_state_file.specs.Stores.{Saves};
ghost use Rattle.subcommands.specs.Damaged.{scrambled_file};
ghost use Rattle.subcommands.specs.Faults.{IsUnsaved};
ghost use Rattle.command_parts.specs.command_faults.declared.fault.Fault.TheVariants.{NoNode, Memory};

use command_parts::{Fault, PathFault, read_network, scramble_node};
use node_state_file::{FileStore, MOST_BYTES, NodeState, Store, StoreFault, encode};
use rand_core::SeedableRng;
use rand_pcg::Lcg64Xsh32;
use std::alloc::Global;
use std::process::ExitCode;
use std::rt::Files;
use topology::Net;

/// Writes the state file of a node of the network of a file: its default state, scrambled by the
/// generator of this seed.
///
/// # Errors
/// If the file gives no network, it has no such node, memory runs out, or the state file cannot be
/// written: the first of these that happens.
pub fn run<'a, R: Files + AllocGlobal>(
    rt: &R,
    network: &str,
    id: u16,
    path: &'a str,
    seed: u32,
) -> Result<ExitCode, PathFault<'a>>
    ensures ok { DoneMeansZero result }
    ensures err { IfErr result (IsUnsaved path.entry) }
{
    let net = read_network(rt, network)?;
    let mut store = FileStore::new(rt, path);
    match save_scrambled(rt.alloc(), &net, id, seed, &mut store)? {
        Ok(()) => Ok(ExitCode::SUCCESS),
        Err(_) => Err(PathFault::Unwritable(path)),
    }
}

/// Saves the state file of a scrambled node, and returns what the store answers.
///
/// # Errors
/// If the network has no such node, or memory runs out; then the store is not asked.
pub fn save_scrambled<S: Store>(
    alloc: Global,
    net: &Net,
    id: u16,
    seed: u32,
    store: &mut S,
) -> Result<Result<(), StoreFault>, Fault>
    // The store is asked to save exactly those bytes.
    ensures saves { IfOk result (λ saved. Saves saved (scrambled_file net.now id seed)
        (S.stored store.old) (S.stored store.new) (S.failures store.old) (S.failures store.new)) }
    ensures err { IfErr result
        (λ fault. fault ≡ (if nat_lt id net.now.nodes then Memory else NoNode)) }
    ensures spares { IfErr result (λ _. store.new ≡ store.old) }
{
    let mut bytes = [0; MOST_BYTES];
    let count = write_scrambled(alloc, net, id, seed, &mut bytes)?;
    Ok(store.save(&bytes[..count]))
}

/// Writes the state file of a scrambled node to the front of `bytes`, and returns its length.
fn write_scrambled(
    alloc: Global,
    net: &Net,
    id: u16,
    seed: u32,
    bytes: &mut [u8; MOST_BYTES],
) -> Result<usize, Fault>
    ensures ok { IfOk result (λ count. take count bytes.new ≡ scrambled_file net.now id seed) }
    ensures room { IfOk result (λ count. count ≤ 1276) }
    ensures node { IfOk result (λ _. id < net.now.nodes) }
    ensures err { IfErr result
        (λ fault. fault ≡ (if nat_lt id net.now.nodes then Memory else NoNode)) }
{
    if id >= net.nodes() {
        return Err(Fault::NoNode);
    }
    let mut node = NodeState::new(alloc, net, id).map_err(|_| Fault::Memory)?;
    let mut generator = Lcg64Xsh32::seed_from_u64(u64::from(seed));
    scramble_node(&mut node, net, &mut generator);
    Ok(encode(&node, net, bytes))
}
