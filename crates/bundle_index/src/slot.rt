ghost use Rattle.std.specs.Prelude.{◌≡◌, ◌↔◌, ◌⊎◌, ◌+◌, ◌*◌, ◌/◌, ◌%◌, ◌<◌, ◌≤◌, IfSome};
ghost use Rattle.bundle_index.specs.Sizes.{slot_count};

use crate::SLOT_COUNT;
use std::marker::Model;

/// One of the 128 by 128 places of a bundle. Contracts see its number, 128 * row + col, which is
/// below 16,384.
#[derive(Clone, Copy, Debug, PartialEq, Eq)]
pub struct Slot {
    number: u16,
}

impl Model for Slot {
    ghost use Rattle.std.specs.Prelude.{ℕ, ◌<◌};
    ghost use Rattle.bundle_index.specs.Sizes.{slot_count};

    ghost Value = { ℕ };

    ghost view = { λ s. s.number };

    ghost invariant = { λ s. s.number < slot_count };

    ghost inverse = { λ n. record { number = n } };
}

impl Slot {
    /// The slot of a row and a column. None exactly where one of them is above 127.
    pub fn of(row: u8, col: u8) -> Option<Slot>
        ensures some { IfSome result (λ s. s ≡ 128 * row + col) }
        ensures none { (result ≡ None) ↔ ((127 < row) ⊎ (127 < col)) }
    {
        if row > 127 || col > 127 {
            return None;
        }
        Some(Slot {
            number: 128 * row as u16 + col as u16,
        })
    }

    /// The slot of a number. None exactly where it is at least 16,384.
    pub fn of_number(number: u16) -> Option<Slot>
        ensures some { IfSome result (λ s. s ≡ number) }
        ensures none { (result ≡ None) ↔ (slot_count ≤ number) }
    {
        if number >= SLOT_COUNT {
            return None;
        }
        Some(Slot { number })
    }

    /// The row, from 0 to 127.
    pub fn row(self) -> u8
        ensures { result ≡ self / 128 }
    {
        (self.number / 128) as u8
    }

    /// The column, from 0 to 127.
    pub fn col(self) -> u8
        ensures { result ≡ self % 128 }
    {
        (self.number % 128) as u8
    }

    /// The number, below 16,384.
    pub fn number(self) -> u16
        ensures value { result ≡ self }
        ensures below { self < slot_count }
    {
        self.number
    }
}
