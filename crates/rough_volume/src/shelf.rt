//! A shelf of rough volumes.

ghost use Rattle.std.specs.Prelude.{◌≡◌, ◌<◌, ◌-◌, ◌^◌, IfOk, IfSome, None, OnOk};
ghost use Rattle.rough_volume.specs.Shelf.{empty_shelf};

use crate::RoughVolume;
use level_cache::{Base, Shelf};
use outside_io::Failed;
use std::alloc::{AllocError, Global};
use std::marker::Model;

/// The volume of a base. Without one it is out.
#[derive(Drop)]
struct Kept {
    base: Base,
    vol: Option<RoughVolume>,
}

/// The base whose volume is out, and the count of faults with which it was taken.
#[derive(Clone, Copy)]
struct Lent {
    base: Base,
    faults: u64,
}

/// Rough volumes by their base. It tells nothing of them to a contract; `volume` shows them. A take
/// fails where the base has no volume here, or one whose count of faults stands at 2^64 - 1, and
/// nothing else does.
#[derive(Drop)]
pub struct RoughShelf {
    places: Vec<Kept>,
    lent: Option<Lent>,
    faults: u64,
    volume_faults: u64,
}

impl Model for RoughShelf {
    ghost use Rattle.rough_volume.specs.Shelf.{ShelfState, taken};

    ghost Value = { ShelfState };

    ghost view = { λ s. record {
      out = taken s.lent;
      faults = s.faults;
      volume_faults = s.volume_faults;
    } };
}

/// The place of a base, if it has one.
fn place_of(places: &[Kept], base: Base) -> Option<usize> {
    for (at, kept) in places.iter().enumerate() {
        if kept.base == base {
            return Some(at);
        }
    }
    None
}

/// Takes the volume of a base out, if it is there and can count a fault.
fn take_out(places: &mut [Kept], base: Base) -> Option<RoughVolume>
    ensures { IfSome result (λ vol. vol.faults < 2 ^ 64 - 1) }
{
    let at = place_of(places, base)?;
    let kept = places.get_mut(at)?;
    let vol = kept.vol.take()?;
    if vol.faults() == u64::MAX {
        kept.vol = Some(vol);
        return None;
    }
    Some(vol)
}

/// Puts a volume in the place of its base.
fn put_back(places: &mut [Kept], base: Base, vol: RoughVolume) {
    if let Some(at) = place_of(places, base)
        && let Some(kept) = places.get_mut(at)
    {
        kept.vol = Some(vol);
    }
}

impl RoughShelf {
    /// A shelf without a volume. It takes no memory.
    pub fn new(alloc: Global) -> RoughShelf
        ensures { result ≡ empty_shelf }
    {
        RoughShelf {
            places: Vec::new(alloc),
            lent: None,
            faults: 0,
            volume_faults: 0,
        }
    }

    /// Gives the shelf a volume for a base that has none. Want of memory is the only error.
    pub fn lay(&mut self, base: Base, vol: RoughVolume) -> Result<(), AllocError>
        ensures { self.new ≡ self.old }
    {
        self.places.push(Kept {
            base,
            vol: Some(vol),
        })?;
        Ok(())
    }

    /// The volume of a base, if it has one that is not out.
    pub fn volume(&self, base: Base) -> Option<&RoughVolume> {
        let at = place_of(&self.places, base)?;
        self.places.get(at)?.vol.as_ref()
    }
}

impl Shelf for RoughShelf {
    ghost use Rattle.std.specs.Prelude.{None, false};

    type Vol = RoughVolume;

    ghost told = { λ _. false };

    ghost volumes = { λ _ _. None };

    ghost out = { λ s. s.out };

    ghost faults = { λ s. s.faults };

    ghost volume_faults = { λ s. s.volume_faults };

    fn take(&mut self, base: Base) -> Result<RoughVolume, Failed> {
        match take_out(&mut self.places, base) {
            Some(vol) => {
                self.lent = Some(Lent {
                    base,
                    faults: vol.faults(),
                });
                Ok(vol)
            }
            None => {
                self.faults = self.faults.saturating_add(1);
                Err(Failed)
            }
        }
    }

    fn give(&mut self, base: Base, vol: RoughVolume) -> Result<(), Failed> {
        let Some(lent) = self.lent else {
            unreachable!();
        };
        if lent.faults < vol.faults() {
            self.volume_faults = self.volume_faults.saturating_add(1);
        }
        self.lent = None;
        put_back(&mut self.places, base, vol);
        Ok(())
    }
}
