ghost use Rattle.std.specs.Prelude.{◌≡◌, ◌↔◌, ◌⊎◌, ◌+◌, ◌*◌, ◌%◌, ◌-◌, ◌^◌, ◌<◌, ◌≤◌, IfSome};
ghost use Rattle.bundle_index.specs.Sizes.{slot_count};
ghost use Rattle.level_cache.specs.Places.{base_of, slot_of};

use bundle_index::Slot;
use std::marker::Model;

/// The first row and the first column of a bundle of a level, both multiples of 128 below 2^31.
/// Contracts see the two numbers.
#[derive(Clone, Copy, Debug, PartialEq, Eq)]
pub struct Base {
    row: u32,
    col: u32,
}

impl Model for Base {
    ghost use Rattle.std.specs.Prelude.{◌≡◌, ◌%◌, ◌<◌, ◌^◌};
    ghost use Rattle.level_cache.specs.Places.{Corner};

    ghost Value = { Corner };

    ghost view = { λ b. record { row = b.row; col = b.col } };

    ghost invariant = { λ b. (b.row < 2 ^ 31)
        × ((b.col < 2 ^ 31) × ((b.row % 128 ≡ 0) × (b.col % 128 ≡ 0))) };

    ghost inverse = { λ c. record { row = c.row; col = c.col } };
}

impl Base {
    /// The first row.
    pub fn row(self) -> u32
        ensures { result ≡ self.row }
    {
        self.row
    }

    /// The first column.
    pub fn col(self) -> u32
        ensures { result ≡ self.col }
    {
        self.col
    }
}

/// A tile's row and column in a level, both below 2^31. Contracts see the two numbers.
#[derive(Clone, Copy, Debug, PartialEq, Eq)]
pub struct Place {
    row: u32,
    col: u32,
}

impl Model for Place {
    ghost use Rattle.std.specs.Prelude.{◌<◌, ◌^◌};
    ghost use Rattle.level_cache.specs.Places.{Corner};

    ghost Value = { Corner };

    ghost view = { λ b. record { row = b.row; col = b.col } };

    ghost invariant = { λ b. (b.row < 2 ^ 31) × (b.col < 2 ^ 31) };

    ghost inverse = { λ c. record { row = c.row; col = c.col } };
}

impl Place {
    /// None exactly where one of the numbers is 2^31 or more.
    pub fn of(row: u32, col: u32) -> Option<Place>
        ensures some { IfSome result (λ p. p ≡ record { row = row; col = col }) }
        ensures none { (result ≡ None) ↔ ((2 ^ 31 ≤ row) ⊎ (2 ^ 31 ≤ col)) }
    {
        if row >= 0x8000_0000 || col >= 0x8000_0000 {
            return None;
        }
        Some(Place { row, col })
    }

    /// The row.
    pub fn row(self) -> u32
        ensures { result ≡ self.row }
    {
        self.row
    }

    /// The column.
    pub fn col(self) -> u32
        ensures { result ≡ self.col }
    {
        self.col
    }

    /// The bundle that has it: both numbers less their remainder by 128.
    pub fn base(self) -> Base
        ensures { result ≡ base_of self }
    {
        Base {
            row: self.row - self.row % 128,
            col: self.col - self.col % 128,
        }
    }

    /// Its slot in that bundle: the two remainders.
    pub fn slot(self) -> Slot
        ensures value { result ≡ slot_of self }
        ensures below { result < slot_count }
    {
        match Slot::of((self.row % 128) as u8, (self.col % 128) as u8) {
            Some(slot) => slot,
            None => unreachable!(),
        }
    }
}
