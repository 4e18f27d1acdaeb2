//! The keys of a network file.
ghost use Rattle.std.specs.Prelude.{◌≡◌};
ghost use Rattle.network_hints.specs.Keys.{key_name, is_key_name};

/// A key of a network file.
#[derive(Clone, Copy)]
pub enum Key {
    /// How many nodes there are.
    Nodes,
    /// The node at distance 0.
    Root,
    /// How many items a direction of an edge holds.
    Capacity,
    /// The most ticks for which the lock is lent.
    Lease,
    /// Which nodes are neighbours.
    Edges,
}

impl Key {
    /// Its name.
    pub fn name(self) -> &'static str
        ensures { result.now ≡ key_name self }
    {
        match self {
            Key::Nodes => "nodes",
            Key::Root => "root",
            Key::Capacity => "capacity",
            Key::Lease => "lease",
            Key::Edges => "edges",
        }
    }
}

/// The names of the keys.
const NAMES: [&str; 5] = ["nodes", "root", "capacity", "lease", "edges"];

/// Whether a key of a network file has this name.
pub fn is_key_name(name: &str) -> bool
    ensures { result ≡ is_key_name name.now }
{
    NAMES.contains(&name)
}
