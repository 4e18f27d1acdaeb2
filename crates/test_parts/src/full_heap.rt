//! Heaps of any size, and heaps that refuse every growth.
use linked_list_allocator::LocalHeap;
use std::alloc::Global;
use std::test::Fail;

/// Does something on a heap of this many bytes. Returns the result, and how many bytes stay taken.
///
/// # Errors
/// If `alloc` refuses memory for the heap; what failed on the way.
pub fn on_heap<T, F: FnOnce(Global, &LocalHeap) -> Result<T, Fail>>(
    alloc: Global,
    bytes: usize,
    deed: F,
) -> Result<(T, usize), Fail>
    requires { F.IsAlwaysCallable deed }
{
    let heap = LocalHeap::new(alloc, bytes)?;
    let found = deed(alloc, &heap)?;
    Ok((found, heap.used()))
}

/// Takes all that a heap has left, so that it refuses every growth until the result is dropped.
///
/// # Errors
/// If `alloc` refuses memory for the list of what was taken.
pub fn fill<'h>(alloc: Global, heap: &'h LocalHeap) -> Result<Vec<Vec<u8, &'h LocalHeap>>, Fail> {
    let mut taken = Vec::with_capacity(alloc, heap.size())?;
    for _ in 0..heap.size() {
        match Vec::with_capacity(heap, 1) {
            Ok(bytes) if taken.len() < taken.capacity() => taken.push_reserved(bytes),
            _ => break,
        }
    }
    Ok(taken)
}

/// Does something while a heap has nothing left. Returns the result, and how many bytes the heap
/// had left.
///
/// # Errors
/// If `alloc` refuses memory for the list of what was taken.
pub fn on_full<T, F: FnOnce() -> T>(
    alloc: Global,
    heap: &LocalHeap,
    deed: F,
) -> Result<(T, usize), Fail>
    requires { F.IsAlwaysCallable deed }
{
    let _full = fill(alloc, heap)?;
    let free = heap.free();
    Ok((deed(), free))
}
