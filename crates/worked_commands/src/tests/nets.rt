//! The network of the rows.
use std::alloc::Global;
use topology::{Net, NetFault};

/// Two nodes whose links hold one item. Rows need nothing of the contract of this call.
pub fn two_nodes(alloc: Global) -> Result<Net, NetFault> {
    Net::make(alloc, 2, 0, 1, 0, &[(0, 1)])
}
