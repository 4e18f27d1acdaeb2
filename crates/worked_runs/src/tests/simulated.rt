//! Simulations whose source, sink or memory fails, or whose text is too long. Every expected text
//! was written by hand.
use std::alloc::Allocator;
use world::Net;
use world::simulation::{SimFault, Summary, simulate};
use world::streams::{Sink, Source};

mod faults;
mod long;
mod shown;

/// Room for every output.
const ROOM: usize = 8192;

/// Simulates. Rows need nothing of the contract of this call; called from here, it does not burden
/// the prover.
fn run<A: Allocator + Copy, R: Source, W: Sink>(
    alloc: A,
    net: &Net,
    source: &mut R,
    sink: &mut W,
) -> Result<Summary, SimFault> {
    simulate(alloc, net, source, sink)
}
