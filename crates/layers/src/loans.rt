//! Whether each loan has the privilege.
ghost use Rattle.std.specs.Prelude.{◌↔◌, IsTrue};
ghost use Rattle.configuration.specs.ConfigurationView.{world_of};
ghost use Rattle.layers.specs.LayersOf.{AreLoansPrivileged};

use configuration::Configuration;
use std::alloc::Allocator;

/// Whether each node that lends is privileged.
pub fn are_loans_privileged<A: Allocator + Copy>(configuration: &Configuration<A>) -> bool
    ensures { IsTrue result ↔ AreLoansPrivileged (world_of configuration.now) }
{
    for v in 0..configuration.net().nodes() {
        let node = configuration.node(v);
        if node.lent().is_some() && !node.privileged() {
            return false;
        }
    }
    true
}
