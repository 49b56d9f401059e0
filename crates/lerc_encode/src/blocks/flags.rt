//! Flags by their numbers, a bit for each, and flags of groups of numbers.

ghost use Rattle.std.specs.Prelude.{◌≡◌, ◌⊎◌, ℕ, ◌+◌, ◌-◌, ◌*◌, ◌/◌, ◌^◌, ◌<◌, ◌↔◌, length, IfOk};
ghost use Rattle.std.specs.Prelude.{IsTrue};
ghost use Rattle.lerc_encode.specs.inside.Flags.{IsFlagged, IsMarked, room_of};

use std::alloc::{AllocError, Global};

/// Flags of numbers: one for each group of so many, one behind the other. With groups of one each
/// number has its own.
#[derive(Drop)]
pub(crate) struct Flags {
    group: usize,
    words: Vec<u64>,
}

/// How many words so many flags take.
fn words_of(count: usize) -> usize
    requires { count < 2 ^ 32 }
    ensures { result ≡ (count + 63) / 64 }
{
    (count + 63) / 64
}

/// Whether flag number k is set.
fn is_set(flags: &[u64], k: usize) -> bool
    requires { k < 64 * length flags.now }
    ensures { IsTrue result ↔ IsFlagged flags.now k }
{
    (flags[k / 64] >> (k % 64)) & 1 == 1
}

/// Sets flag number k, and leaves all others.
fn set_flag(flags: &mut [u64], k: usize)
    requires { k < 64 * length flags.old }
    ensures room { length flags.new ≡ length flags.old }
    ensures this { IsFlagged flags.new k }
    ensures others { (i : ℕ) → (i ≡ k → ⊥) → IsFlagged flags.new i ↔ IsFlagged flags.old i }
{
    flags[k / 64] |= 1 << (k % 64);
}

/// Flags for the first so many numbers in groups, none of them set.
pub(crate) fn no_flags(alloc: Global, count: usize, group: usize) -> Result<Flags, AllocError>
    requires count { count < 2 ^ 31 }
    requires some { 0 < group }
    requires few { group < 2 ^ 31 }
    ensures group { IfOk result (λ flags. flags.group ≡ group) }
    ensures words { IfOk result (λ flags. length flags.words.items
        ≡ ((count + group - 1) / group + 63) / 64) }
    ensures none { IfOk result (λ flags. (k : ℕ) → IsMarked flags k → ⊥) }
{
    let words = vec![in alloc; 0u64; words_of((count + group - 1) / group)]?;
    Ok(Flags { group, words })
}

/// Whether each number has a flag of its own.
pub(crate) fn are_single(flags: &Flags) -> bool
    ensures { IsTrue result ↔ (flags.now.group ≡ 1) }
{
    flags.group == 1
}

/// The number of the flag of number k.
fn place_of(flags: &Flags, k: usize) -> usize
    requires { k < room_of flags.now }
    ensures value { result ≡ k / flags.now.group }
    ensures within { result < 64 * length flags.now.words.items }
{
    if flags.group == 1 {
        return k;
    }
    k / flags.group
}

/// Whether the flag of number k is set.
pub(crate) fn is_marked(flags: &Flags, k: usize) -> bool
    requires { k < room_of flags.now }
    ensures { IsTrue result ↔ IsMarked flags.now k }
{
    is_set(&flags.words, place_of(flags, k))
}

/// Sets the flag of number k where that is told, and leaves those of other groups.
pub(crate) fn mark_where(flags: &mut Flags, k: usize, told: bool)
    requires { k < room_of flags.old }
    ensures room { room_of flags.new ≡ room_of flags.old }
    ensures group { flags.new.group ≡ flags.old.group }
    ensures this { IsMarked flags.new k ↔ (IsMarked flags.old k ⊎ IsTrue told) }
    ensures others { (i : ℕ) → (i / flags.old.group ≡ k / flags.old.group → ⊥)
        → IsMarked flags.new i ↔ IsMarked flags.old i }
{
    if told {
        let place = place_of(flags, k);
        set_flag(&mut flags.words, place);
    }
}
