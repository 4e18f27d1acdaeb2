//! How many frames are under way between the nodes of a small network.
ghost use Rattle.std.specs.Prelude.{◌≡◌, ◌<◌};
ghost use Rattle.world.specs.judge.configuration.ConfigurationView.{world_of};
ghost use Rattle.run_recording.specs.UnderWay.{sent_at, under_way_of};

use crate::still::{MOST_FRAMED, MOST_WAYS};
use std::alloc::Allocator;
use world::Configuration;

/// How many frames are under way from one node to another: at the place 12 u + v, from u to v.
fn sent_at<A: Allocator + Copy>(configuration: &Configuration<A>, place: usize) -> u16
    requires { place < 144 }
    ensures { result ≡ sent_at (world_of configuration.now) place }
{
    let nodes = configuration.net().nodes();
    let (from, to) = ((place / 12) as u16, (place % 12) as u16);
    if nodes <= MOST_FRAMED && from < nodes && to < nodes {
        configuration.under_way(from, to) as u16
    } else {
        0
    }
}

/// How many frames are under way from each node to each other node, by the places of the pairs.
pub fn under_way_of<A: Allocator + Copy>(configuration: &Configuration<A>) -> [u16; MOST_WAYS]
    ensures { result ≡ under_way_of (world_of configuration.now) }
{
    let mut under_way = [0; MOST_WAYS];
    for place in 0..MOST_WAYS {
        under_way[place] = sent_at(configuration, place);
    }
    under_way
}
