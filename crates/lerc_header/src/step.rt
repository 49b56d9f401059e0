//! The step of the values.

ghost use Rattle.std.specs.Prelude.{◌≡◌, ℕ};
ghost use Rattle.raster_cells.specs.Step.{IsTwiceError};
ghost use Rattle.lerc_header.specs.Written.{step_of};

use std::marker::Model;

/// How far apart two values lie that a blob can tell: twice its maxZError. It is 1 where no value
/// may change, and an even number from 2 to 2 ^ 33 - 2 else.
#[derive(Clone, Copy, Debug, PartialEq, Eq)]
pub struct Step {
    twice: u64,
}

impl Model for Step {
    ghost Value = { ℕ };

    ghost view = { λ s. s.twice };

    ghost invariant = { λ s. IsTwiceError s.twice };

    ghost inverse = { λ n. record { twice = n } };
}

impl Step {
    /// The step for a greatest error of this size: 1 for the error 0, and twice the error else.
    pub fn of(error: u32) -> Step
        ensures step { result ≡ step_of error }
        ensures allowed { IsTwiceError result }
    {
        if error == 0 {
            return Step { twice: 1 };
        }
        Step {
            twice: 2 * u64::from(error),
        }
    }

    /// The number.
    pub fn get(self) -> u64
        ensures step { result ≡ self }
        ensures allowed { IsTwiceError result }
    {
        self.twice
    }
}
