//! Marks of a program's work: moments of a clock.

ghost use Rattle.std.specs.Prelude.{◌≡◌, ◌+◌, ◌-◌, ◌<◌, ◌≤◌, ℕ, [], ◌∷◌, ◌++◌, Some, OnOk, OnErr, IsTrue, ◌↔◌, length, max, slice_get};

use std::alloc::{AllocError, Global};
use std::marker::Model;

/// Marks of a program's work, as moments of a clock, in the order in which they were added.
/// Contracts see the list of marks, and beside it how many more can be added without taking
/// memory, the number `spare`.
#[derive(Drop)]
pub struct Marks {
    items: Vec<u64>,
    spare: usize,
}

impl Model for Marks {
    ghost use Rattle.std.specs.Prelude.{◌+◌, ◌≤◌, vec_len, vec_capacity};
    ghost use Rattle.outside_io.specs.program.Marks.{MarkList};

    ghost Value = { MarkList };

    ghost view = { λ m. record { marks = m.items.items; spare = m.spare } };

    ghost invariant = { λ m. vec_len m.items + m.spare ≤ vec_capacity m.items };
}

impl Marks {
    /// No marks and none to spare. It takes no memory.
    pub fn new(alloc: Global) -> Marks
        ensures { result ≡ record { marks = []; spare = 0 } }
    {
        Marks {
            items: Vec::new(alloc),
            spare: 0,
        }
    }

    /// How many marks there are.
    pub fn len(&self) -> usize
        ensures { result ≡ length self.now.marks }
    {
        self.items.len()
    }

    /// Whether there is none.
    pub fn is_empty(&self) -> bool
        ensures { IsTrue result ↔ (length self.now.marks ≡ 0) }
    {
        self.items.is_empty()
    }

    /// The mark with number i, counted from 0.
    pub fn at(&self, i: usize) -> u64
        requires { i < length self.now.marks }
        ensures { slice_get self.now.marks i ≡ Some result }
    {
        self.items[i]
    }

    /// Takes memory so that at least `count` more marks can be added. Want of memory is its only
    /// error, and changes nothing.
    pub fn reserve(&mut self, count: usize) -> Result<(), AllocError>
        ensures ok { OnOk result
            (self.new ≡ record self.old { spare = max self.old.spare count }) }
        ensures err { OnErr result (self.new ≡ self.old) }
    {
        if self.spare < count {
            self.items.reserve(count)?;
            self.spare = count;
        }
        Ok(())
    }

    /// Adds a mark behind the others. It takes no memory.
    pub fn add(&mut self, mark: u64)
        requires { 0 < self.old.spare }
        ensures marks { self.new.marks ≡ self.old.marks ++ mark ∷ [] }
        ensures spare { self.new.spare + 1 ≡ self.old.spare }
    {
        self.spare -= 1;
        match self.items.push(mark) {
            Ok(()) => {}
            Err(_) => unreachable!(),
        }
    }
}
