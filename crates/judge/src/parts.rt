//! A world taken apart, and put together again.
ghost use Rattle.std.specs.Prelude.{◌≡◌};
ghost use Rattle.judge.specs.Parts.{AreOneWorlds};

use crate::stretch::Stretch;
use crate::world::World;
use configuration::{Configuration, Links, Node};
use std::alloc::{Allocator, Global};

/// The parts of a world, for running its nodes by other means than events, on threads for example.
#[derive(Drop)]
pub struct Parts<A: Allocator + Copy = Global> {
    /// The nodes by their ids.
    pub nodes: Vec<Node<A>, A>,
    /// The links, with what is under way on them. They keep the network.
    pub links: Links<A>,
    /// The memory that is reserved for a judge.
    pub room: Stretch<A>,
}

impl<A: Allocator + Copy> World<A> {
    /// The world's parts. Takes no memory.
    pub fn into_parts(self) -> Parts<A>
        ensures nodes { result.nodes.items ≡ self.nodes }
        ensures links { result.links ≡ self.links }
        // They meet what `from_parts` requires.
        ensures parts { AreOneWorlds result.nodes.items result.links result.room }
    {
        let World {
            configuration,
            room,
        } = self;
        let (nodes, links) = configuration.into_parts();
        Parts { nodes, links, room }
    }

    /// The world with these parts, which must belong to one world: each node at the place of its
    /// id. Takes no memory.
    pub fn from_parts(parts: Parts<A>) -> World<A>
        requires { AreOneWorlds parts.nodes.items parts.links parts.room }
        ensures { result ≡ record { nodes = parts.nodes.items; links = parts.links } }
    {
        let Parts { nodes, links, room } = parts;
        World {
            configuration: Configuration::from_parts(nodes, links),
            room,
        }
    }
}
