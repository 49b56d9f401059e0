//! A gate in which workers meet.

use std::sync::atomic::{AtomicBool, Ordering};
use tile_workers::Gate;

/// How often a worker looks for the others.
const LOOKS: u32 = 200000000;

/// A gate that holds the workers of the first tiles, two or four of them, until each is there, or
/// for so many looks. Other tiles pass.
#[derive(Drop)]
pub struct Meeting {
    count: usize,
    arrived: [AtomicBool; 4],
    met: [AtomicBool; 4],
}

/// Four times no.
fn none_of_four() -> [AtomicBool; 4] {
    [
        AtomicBool::new(false),
        AtomicBool::new(false),
        AtomicBool::new(false),
        AtomicBool::new(false),
    ]
}

/// Whether the first so many are all true.
fn are_all(flags: &[AtomicBool; 4], count: usize) -> bool {
    for flag in flags.iter().take(count) {
        if !flag.load(Ordering::SeqCst) {
            return false;
        }
    }
    true
}

impl Meeting {
    /// The workers of two tiles are to meet, and nobody is there.
    pub fn of_two() -> Meeting {
        Meeting {
            count: 2,
            arrived: none_of_four(),
            met: none_of_four(),
        }
    }

    /// The same of four tiles.
    pub fn of_four() -> Meeting {
        Meeting {
            count: 4,
            arrived: none_of_four(),
            met: none_of_four(),
        }
    }

    /// Whether each of them saw all.
    pub fn all_met(&self) -> bool {
        are_all(&self.met, self.count)
    }
}

impl Gate for Meeting {
    fn pass(&self, at: usize) {
        if at >= self.count || at > 3 {
            return;
        }
        self.arrived[at].store(true, Ordering::SeqCst);
        for _ in 0..LOOKS {
            if are_all(&self.arrived, self.count) {
                self.met[at].store(true, Ordering::SeqCst);
                return;
            }
        }
    }
}
