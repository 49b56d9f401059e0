ghost use Rattle.std.specs.Prelude.{◌≡◌, ◌≢◌, ◌<◌, ◌^◌, ◌-◌, ℕ, Bool, Option, None, Some, IsTrue, IfOk, OnOk, OnErr};
ghost use Rattle.outside_io.specs.streams.Faults.{CountsFaults};
ghost use Rattle.level_cache.specs.Places.{Corner};
ghost use Rattle.level_cache.specs.Shelf.{Hands, IsOut, PutsBack, RaisesSecond, SameBeside, Taken};

use crate::Base;
use outside_io::{Failed, Volume};

/// Volumes by the base of their bundle, of which one at a time is out.
pub trait Shelf {
    type Vol: Volume;

    /// Whether it tells its volumes. No call changes this.
    ghost told: { Self → Bool };

    /// The volume of each base that has one.
    ghost volumes: { Self → Corner → Option Self.Vol };

    /// The base whose volume is out, if any, with the count of faults that this volume had as it
    /// was taken.
    ghost out: { Self → Option Taken };

    /// How often a call of the shelf has failed. It never falls.
    ghost faults: { Self → ℕ };

    /// How often a volume's own count had risen as it was given back. It never falls.
    ghost volume_faults: { Self → ℕ };

    /// Takes the volume of a base out, an empty one where there is none.
    fn take(&mut self, base: Base) -> Result<Self::Vol, Failed>
        requires none_out { out self.old ≡ None }
        ensures hands { IsTrue (told self.old) → IfOk result (λ vol. Hands Self.Vol.told
            Self.Vol.history Self.Vol.faults (volumes self.old base) vol) }
        ensures room { IfOk result (λ vol. Self.Vol.faults vol < 2 ^ 64 - 1) }
        ensures out { IfOk result (λ vol. out self.new
            ≡ Some (record { base = base; faults = Self.Vol.faults vol })) }
        ensures beside { IsTrue (told self.old) → OnOk result (SameBeside base (volumes self.old)
            (volumes self.new)) }
        ensures gone { IsTrue (told self.old) → OnOk result (volumes self.new base ≡ None) }
        ensures none_out { OnErr result (out self.new ≡ None) }
        ensures same { IsTrue (told self.old) → OnErr result (volumes self.new
            ≡ volumes self.old) }
        ensures second { volume_faults self.new ≡ volume_faults self.old }
        ensures told { told self.new ≡ told self.old }
        ensures counted { CountsFaults result (faults self.old) (faults self.new) };

    /// Puts the volume that is out in its place, whatever it answers.
    fn give(&mut self, base: Base, vol: Self::Vol) -> Result<(), Failed>
        requires out { IsOut (out self.old) base (Self.Vol.faults vol) }
        ensures put { IsTrue (told self.old) → PutsBack base vol (volumes self.old)
            (volumes self.new) }
        ensures none_out { out self.new ≡ None }
        ensures second { RaisesSecond (out self.old) (Self.Vol.faults vol)
            (volume_faults self.old) (volume_faults self.new) }
        ensures told { told self.new ≡ told self.old }
        ensures counted { CountsFaults result (faults self.old) (faults self.new) };
}
