//! How a node that has its place starts: its state is loaded, and its doors are opened.
ghost use Rattle.std.specs.Prelude.{◌≡◌, ◌<◌, true, IfOk, IfErr};
ghost use Rattle.node_loop.specs.node_core.Site.{site_of};
ghost use Rattle.node_loop.specs.node_core.View.{site_in};
ghost use Rattle.record_files.specs.process_parts.Start.{may_end};
ghost use Rattle.record_files.specs.process_parts.declared.fault.NodeFault.TheVariants.{Memory};
ghost use Rattle.record_files.specs.process_parts.declared.start.StartStage.TheVariants.{Held, Ready};

use node_folder::{Names, Opener, Seat, Started, Store, say_ready, start};
use node_loop::{Doors, Node, NodeRun};
use record_files::process_parts::{NodeFault, NodeWords, StartStage};
use std::alloc::Global;
use std::rt::Env;
use topology::Net;

/// Loads the state, opens the doors, and reports both.
pub fn start_node<'a, R, O: Opener, S: Store + Drop>(
    rt: &R,
    seat: &Seat<'a, '_>,
    opener: &O,
    mut store: S,
    net: Net,
    stage: &mut StartStage,
) -> Result<(NodeRun<O::D, S>, Names<'a>), NodeFault>
where
    R: Env + Print + AllocGlobal,
    requires node { seat.now.words.now.id < net.nodes }
    requires held { stage.old ≡ Held }
    ensures ok { IfOk result (λ _. stage.new ≡ Ready) }
    ensures err { IfErr result (λ fault. may_end stage.new fault ≡ true) }
{
    match start(rt.alloc(), &mut store, &net, seat.words.id) {
        Ok(started) => open_node(rt, seat, opener, net, started, store, stage),
        Err(_) => {
            drop(net);
            drop(store);
            Err(NodeFault::Memory)
        }
    }
}

/// Opens the doors of a node that starts with this state, and reports both.
fn open_node<'a, R, O: Opener, S: Store + Drop>(
    rt: &R,
    seat: &Seat<'a, '_>,
    opener: &O,
    net: Net,
    started: Started<Global>,
    store: S,
    stage: &mut StartStage,
) -> Result<(NodeRun<O::D, S>, Names<'a>), NodeFault>
where
    R: Env + Print + AllocGlobal,
    requires wired { site_in started.state ≡ site_of net seat.now.words.now.id }
    requires held { stage.old ≡ Held }
    ensures ok { IfOk result (λ _. stage.new ≡ Ready) }
    ensures err { IfErr result (λ fault. may_end stage.new fault ≡ true) }
{
    match opener.open(&net, stage) {
        Ok((doors, files)) => {
            let fault = started.fault;
            match made_run(rt.alloc(), seat.words, net, started.state, doors, store) {
                Ok(run) => {
                    say_ready(rt, seat.words, fault, stage);
                    Ok((
                        run,
                        Names::new(seat.paths, seat.place, seat.words.rights, files),
                    ))
                }
                Err(fault) => Err(fault),
            }
        }
        Err(fault) => {
            drop(started);
            drop(store);
            drop(net);
            Err(fault)
        }
    }
}

/// A node of this network over these doors, in the manner of these words.
fn made_run<D: Doors, S: Store + Drop>(
    alloc: Global,
    words: &NodeWords<'_>,
    net: Net,
    state: Node,
    doors: D,
    store: S,
) -> Result<NodeRun<D, S>, NodeFault>
    requires { site_in state ≡ site_of net (site_in state).id }
    ensures { IfErr result (λ fault. fault ≡ Memory) }
{
    match NodeRun::new(alloc, net, state, doors, store, words.manner) {
        Ok(run) => Ok(run),
        Err(unmade) => {
            drop(unmade);
            Err(NodeFault::Memory)
        }
    }
}
