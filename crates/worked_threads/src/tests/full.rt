//! A gate after which there is no memory.
use std::alloc::Global;
use std::mem;
use std::sync::atomic::{AtomicBool, Ordering};
use thread_net::{Gate, Meet};

/// How many turns each node does.
pub const TURNS: u32 = 50;

/// The most blocks of one size that are taken.
const BLOCKS: u32 = 10_000_000;

/// Takes all memory in blocks of this many bytes, and keeps it.
fn take_blocks(alloc: Global, size: usize) {
    for _ in 0..BLOCKS {
        let Ok(block) = Vec::<u8>::with_capacity(alloc, size) else {
            return;
        };
        mem::forget(block);
    }
}

/// Whether a block of this many bytes is refused.
fn is_refused(alloc: Global, size: usize) -> bool {
    Vec::<u8>::with_capacity(alloc, size).is_err()
}

/// Takes all memory, in ever smaller blocks, and keeps it.
fn take_all(alloc: Global) {
    for bits in 0..25u32 {
        take_blocks(alloc, (1usize << 28) >> bits);
    }
}

/// Takes so many small blocks of each size that no freed one is left.
pub fn take_small(alloc: Global) {
    for size in 1..80usize {
        for _ in 0..32 {
            if let Ok(block) = Vec::<u8>::with_capacity(alloc, size * 16) {
                mem::forget(block);
            }
        }
    }
}

/// A gate at which all nodes meet before their first turn. Then node 0 takes all memory, and the
/// others wait for that. After its last turn node 0 checks that there is still none.
#[derive(Drop)]
pub struct Full {
    alloc: Global,
    started: Meet,
    taken: Meet,
    is_full: AtomicBool,
}

impl Full {
    pub fn new(alloc: Global, nodes: u16) -> Full {
        Full {
            alloc,
            started: Meet::new(nodes),
            taken: Meet::new(nodes),
            is_full: AtomicBool::new(false),
        }
    }

    /// Whether all nodes met, and there was no memory until the last turn was done.
    pub fn held(&self) -> bool {
        self.is_full.load(Ordering::SeqCst) && !self.started.gave_up() && !self.taken.gave_up()
    }
}

impl Gate for Full {
    fn before(&self, node: u16, turn: u32) {
        if turn == 0 {
            self.started.before(node, turn);
            if node == 0 {
                take_all(self.alloc);
            }
            self.taken.before(node, turn);
        }
    }

    fn after(&self, node: u16, turn: u32) {
        if node == 0 && turn == TURNS - 1 {
            self.is_full
                .store(is_refused(self.alloc, 16), Ordering::SeqCst);
        }
    }
}
