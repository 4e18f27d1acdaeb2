//! Heaps of every size.
use linked_list_allocator::LocalHeap;
use std::alloc::Global;
use std::test::Fail;
use test_parts::on_heap;

/// The size, in units of 16 bytes, of the smallest heap that does not refuse a deed, and whether
/// the deed was right there and every heap so far was freed; 0 if all below 200 refuse it.
pub fn least_heap<F: Fn(&LocalHeap) -> Result<Option<bool>, Fail>>(
    alloc: Global,
    deed: F,
) -> Result<(usize, bool), Fail>
    requires { F.IsAlwaysCallable deed }
{
    for units in 1..200usize {
        match on_heap(alloc, units * 16, |_, heap| deed(heap))? {
            (None, 0) => {}
            (found, used) => return Ok((units, found == Some(true) && used == 0)),
        }
    }
    Ok((0, false))
}
