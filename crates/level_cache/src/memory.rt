//! A shelf in memory.

ghost use Rattle.std.specs.Prelude.{◌≡◌, ◌↔◌, ◌<◌, ◌≤◌, ◌^◌, ◌-◌, ◌+◌, ◌⊎◌, All, None, Some, IsTrue, IsSome, IsErr, IfOk, IfSome, IsSomeAnd, OnOk, OnErr, Contains, true, false, length};
ghost use Rattle.outside_io.specs.streams.Faults.{CountsFaults, one_more};
ghost use Rattle.outside_io.specs.volume.Recorded.{history_of};
ghost use Rattle.level_cache.specs.Memory.{IsSpare, MustFailToTake, Numbers, first_state, is_base, spare_of, used_for, volume_of};
ghost use Rattle.level_cache.specs.Shelf.{Hands, IsOut, PutsBack, RaisesSecond, SameBeside};
ghost use Rattle.level_cache.specs.inside.Places.{AreNot, FirstOf, FirstSpare, HaveVolumes, IsReady, LendsAt, NoneIsLeft, PutsBackAt, SparesAreNew, Takes};

use crate::{Base, Shelf};
use outside_io::{Failed, MemVolume};
use std::alloc::{AllocError, Global};
use std::marker::Model;

/// A volume, and the base that it belongs to, if any yet. Without a volume it is out.
#[derive(Drop)]
struct Kept {
    base: Option<Base>,
    vol: Option<MemVolume>,
}

/// The base whose volume is out, its place, and the count of faults with which it was taken.
#[derive(Clone, Copy)]
struct Lent {
    at: usize,
    base: Base,
    faults: u64,
}

/// A shelf of volumes in memory. It tells them. Its calls are numbered from 0, up to 2^64 - 1. No
/// call takes memory.
#[derive(Drop)]
pub struct MemShelf {
    places: Vec<Kept>,
    failing: Vec<u64>,
    call: u64,
    lent: Option<Lent>,
    faults: u64,
    volume_faults: u64,
}

impl Model for MemShelf {
    ghost use Rattle.level_cache.specs.Memory.{MemState};

    ghost Value = { MemState };

    ghost use Rattle.level_cache.specs.inside.Places.{IsShelf, state_of};

    ghost view = { state_of };

    ghost invariant = { IsShelf };
}

/// Whether the next call is to fail by its number. The number is that of the call after it then.
fn is_named(failing: &[u64], call: &mut u64) -> bool
    ensures named { IsTrue result ↔ Contains failing.now call.old }
    ensures call { call.new ≡ one_more call.old }
{
    let named = failing.contains(call);
    *call = call.saturating_add(1);
    named
}

/// Counts one more where there was a fault.
fn count_if(fault: bool, faults: &mut u64)
    ensures more { fault ≡ true → faults.new ≡ one_more faults.old }
    ensures same { fault ≡ false → faults.new ≡ faults.old }
{
    if fault {
        *faults = faults.saturating_add(1);
    }
}

/// Whether the place is that of the base.
fn is_of(kept: &Kept, base: Base) -> bool
    ensures { result ≡ is_base base kept.now.base }
{
    match kept.base {
        Some(own) => own.row() == base.row() && own.col() == base.col(),
        None => false,
    }
}

/// The place of the base, if it has one.
fn place_of(places: &[Kept], base: Base) -> Option<usize>
    ensures found { IfSome result (λ at. FirstOf base places.now at) }
    ensures none { result ≡ None → AreNot base places.now }
{
    for (at, kept) in places.iter().enumerate() {
        if is_of(kept, base) {
            return Some(at);
        }
    }
    None
}

/// Whether the place has no base yet.
fn is_spare(kept: &Kept) -> bool
    ensures spare { result ≡ true → kept.now.base ≡ None }
    ensures not { result ≡ false → kept.now.base ≡ None → ⊥ }
{
    match kept.base {
        Some(_) => false,
        None => true,
    }
}

/// The first place that has no base, if there is one.
fn spare_place(places: &[Kept]) -> Option<usize>
    ensures found { IfSome result (λ at. FirstSpare places.now at) }
    ensures none { result ≡ None → spare_of places.now ≡ 0 }
{
    for (at, kept) in places.iter().enumerate() {
        if is_spare(kept) {
            return Some(at);
        }
    }
    None
}

/// Whether the volume there can still count a fault.
fn can_count(kept: &Kept) -> bool
    ensures can { result ≡ true → IsSomeAnd kept.now.vol (λ v. v.faults < 2 ^ 64 - 1) }
    ensures full { result ≡ false → IsSome kept.now.vol
        → IsSomeAnd kept.now.vol (λ v. v.faults ≡ 2 ^ 64 - 1) }
{
    match &kept.vol {
        Some(vol) => vol.faults() < u64::MAX,
        None => false,
    }
}

/// The place from which the volume of a base is taken.
fn ready_place(places: &[Kept], base: Base) -> Option<usize>
    requires { HaveVolumes places.now }
    ensures ready { IfSome result (λ at. IsReady base places.now at) }
    ensures none { (result ≡ None) ↔ NoneIsLeft base places.now }
{
    match place_of(places, base) {
        Some(at) if can_count(&places[at]) => Some(at),
        Some(_) => None,
        None => spare_place(places),
    }
}

/// Takes the volume there for the base.
fn lend(places: &mut [Kept], at: usize, base: Base) -> Option<MemVolume>
    requires { at < length places.old }
    ensures { LendsAt at base places.old places.new result }
{
    let kept = &mut places[at];
    kept.base = Some(base);
    kept.vol.take()
}

/// Puts a volume there.
fn put_at(places: &mut [Kept], at: usize, vol: MemVolume)
    requires { at < length places.old }
    ensures lies { PutsBackAt at places.old places.new vol }
    ensures many { length places.new ≡ length places.old }
{
    places[at].vol = Some(vol);
}

/// Takes the volume of the base, a new one where it has none, unless the call is to fail.
fn take_from(places: &mut [Kept], base: Base, named: bool) -> Option<(Lent, MemVolume)>
    requires volumes { HaveVolumes places.old }
    requires spares { SparesAreNew places.old }
    ensures takes { IfSome result (λ r. Takes base places.old places.new r.0 r.1) }
    ensures same { (result ≡ None) → places.new ≡ places.old }
    ensures none { (result ≡ None) ↔ ((named ≡ true) ⊎ NoneIsLeft base places.old) }
    ensures many { length places.new ≡ length places.old }
{
    if named {
        return None;
    }
    let Some(at) = ready_place(places, base) else {
        return None;
    };
    let Some(vol) = lend(places, at, base) else {
        unreachable!();
    };
    let faults = vol.faults();
    Some((Lent { at, base, faults }, vol))
}

/// The same of the places of a shelf.
fn take_out(places: &mut Vec<Kept>, base: Base, named: bool) -> Option<(Lent, MemVolume)>
    requires volumes { HaveVolumes places.old.items }
    requires spares { SparesAreNew places.old.items }
    ensures takes { IfSome result (λ r. Takes base places.old.items places.new.items r.0 r.1) }
    ensures same { (result ≡ None) → places.new.items ≡ places.old.items }
    ensures none { (result ≡ None) ↔ ((named ≡ true) ⊎ NoneIsLeft base places.old.items) }
{
    take_from(places, base, named)
}

/// Puts a volume in its place of a shelf.
fn put_back(places: &mut Vec<Kept>, at: usize, vol: MemVolume)
    requires { at < length places.old.items }
    ensures { PutsBackAt at places.old.items places.new.items vol }
{
    put_at(places, at, vol);
}

impl MemShelf {
    /// A shelf without a volume, which has these for new bases, each with two empty files. A call
    /// fails exactly where its number is in `failing`, or where it is a take of a new base and no
    /// volume is left for it, or of a base whose volume's count of faults stands at 2^64 - 1. All
    /// its memory is taken here; want of it is the only error.
    pub fn new(
        alloc: Global,
        spare: Vec<MemVolume>,
        failing: Vec<u64>,
    ) -> Result<MemShelf, AllocError>
        requires { All IsSpare spare.items }
        ensures { IfOk result (λ s. s ≡ first_state spare.items failing.items) }
    {
        let mut places = Vec::with_capacity(alloc, spare.len())?;
        for vol in spare {
            places.push(Kept {
                base: None,
                vol: Some(vol),
            })?;
        }
        Ok(MemShelf {
            places,
            failing,
            call: 0,
            lent: None,
            faults: 0,
            volume_faults: 0,
        })
    }
}

impl Shelf for MemShelf {
    type Vol = MemVolume;

    ghost told = { λ _. true };

    ghost volumes = { λ s. volume_of s.places };

    ghost out = { λ s. s.out };

    ghost faults = { λ s. s.faults };

    ghost volume_faults = { λ s. s.volume_faults };

    fn take(&mut self, base: Base) -> Result<MemVolume, Failed>
        requires none_out { self.old.out ≡ None }
        ensures hands { IfOk result (λ vol. Hands (λ _. true) history_of (λ v. v.faults)
            (volume_of self.old.places base) vol) }
        ensures room { IfOk result (λ vol. vol.faults < 2 ^ 64 - 1) }
        ensures out { IfOk result (λ vol. self.new.out
            ≡ Some (record { base = base; faults = vol.faults })) }
        ensures beside { OnOk result (SameBeside base (volume_of self.old.places)
            (volume_of self.new.places)) }
        ensures gone { OnOk result (volume_of self.new.places base ≡ None) }
        ensures none_out { OnErr result (self.new.out ≡ None) }
        ensures same { OnErr result (volume_of self.new.places ≡ volume_of self.old.places) }
        ensures second { self.new.volume_faults ≡ self.old.volume_faults }
        ensures counted { CountsFaults result self.old.faults self.new.faults }
        ensures fails { IsErr result ↔ MustFailToTake self.old base }
        ensures numbers { Numbers self.old self.new result }
        ensures spare { OnOk result
            (spare_of self.new.places + used_for (volume_of self.old.places base)
            ≡ spare_of self.old.places) }
        ensures same_spare { OnErr result (spare_of self.new.places ≡ spare_of self.old.places) }
    {
        let named = is_named(&self.failing, &mut self.call);
        match take_out(&mut self.places, base, named) {
            Some((lent, vol)) => {
                self.lent = Some(lent);
                Ok(vol)
            }
            None => {
                count_if(true, &mut self.faults);
                Err(Failed)
            }
        }
    }

    fn give(&mut self, base: Base, vol: MemVolume) -> Result<(), Failed>
        requires out { IsOut self.old.out base vol.faults }
        ensures put { PutsBack base vol (volume_of self.old.places)
            (volume_of self.new.places) }
        ensures none_out { self.new.out ≡ None }
        ensures second { RaisesSecond self.old.out vol.faults self.old.volume_faults
            self.new.volume_faults }
        ensures counted { CountsFaults result self.old.faults self.new.faults }
        ensures fails { IsErr result ↔ Contains self.old.failing self.old.call }
        ensures numbers { Numbers self.old self.new result }
        ensures same_spare { spare_of self.new.places ≡ spare_of self.old.places }
    {
        let Some(lent) = self.lent else {
            unreachable!();
        };
        count_if(lent.faults < vol.faults(), &mut self.volume_faults);
        put_back(&mut self.places, lent.at, vol);
        self.lent = None;
        let named = is_named(&self.failing, &mut self.call);
        count_if(named, &mut self.faults);
        if named { Err(Failed) } else { Ok(()) }
    }
}
