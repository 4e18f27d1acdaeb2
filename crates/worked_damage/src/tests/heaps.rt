//! Calls on ever larger heaps.
use linked_list_allocator::LocalHeap;
use std::alloc::{AllocError, Global};

/// How a call ended on a heap.
#[derive(Clone, Copy)]
pub enum End {
    /// There was too little room for the arguments of the call.
    NoRoom,
    /// Memory was refused, and all that the call had taken was freed.
    Refused,
    /// It did the same as with ample memory.
    Done,
    /// Anything else.
    Wrong,
}

/// Makes a call on heaps of ever more units of 16 bytes, until one does not refuse it. Returns
/// whether the call was done there, and at least `least` heaps refused it before.
pub fn meets_each_refusal<F: FnMut(&LocalHeap) -> End>(
    alloc: Global,
    least: u32,
    mut call: F,
) -> Result<bool, AllocError>
    requires { F.IsAlwaysCallable call }
{
    let mut refused = 0u32;
    for units in 1..1000usize {
        let heap = LocalHeap::new(alloc, units.saturating_mul(16))?;
        let end = call(&heap);
        if heap.used() != 0 {
            return Ok(false);
        }
        match end {
            End::NoRoom => {}
            End::Refused => refused = refused.saturating_add(1),
            End::Done => return Ok(refused >= least),
            End::Wrong => return Ok(false),
        }
    }
    Ok(false)
}
