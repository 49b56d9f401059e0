//! A gate that counts.

use std::alloc::{AllocError, Global};
use std::sync::atomic::{AtomicU64, Ordering};
use tile_workers::Gate;

/// A gate that counts, of each of so many tiles, how often it passes. It holds nobody.
#[derive(Drop)]
pub struct Counting {
    passes: Vec<AtomicU64>,
    others: AtomicU64,
}

impl Counting {
    /// No tile has passed of so many.
    pub fn new(alloc: Global, count: usize) -> Result<Counting, AllocError> {
        let mut passes = Vec::new(alloc);
        for _ in 0..count {
            passes.push(AtomicU64::new(0))?;
        }
        Ok(Counting {
            passes,
            others: AtomicU64::new(0),
        })
    }

    /// How often tile number `at` passed, and for a number that is of no tile how often any such
    /// did.
    pub fn passes_of(&self, at: usize) -> u64 {
        match self.passes.get(at) {
            Some(count) => count.load(Ordering::SeqCst),
            None => self.others.load(Ordering::SeqCst),
        }
    }
}

impl Gate for Counting {
    fn pass(&self, at: usize) {
        match self.passes.get(at) {
            Some(count) => count.fetch_add(1, Ordering::SeqCst),
            None => self.others.fetch_add(1, Ordering::SeqCst),
        };
    }
}
