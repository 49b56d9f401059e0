//! Where a bundle stands.

ghost use Rattle.std.specs.Prelude.{◌≡◌, ◌↔◌, ◌++◌, Some, IfOk, IfSome, IsNone, codes, slice_get, string_bytes};
ghost use Rattle.program_ends.specs.Arguments.{IsNoPair, IsNoPath};

use crate::arguments::{Arguments, word_at};
use std::alloc::{AllocError, Global};
use std::str::from_utf8;

/// The paths of a bundle and of the journal beside it.
#[derive(Drop)]
pub struct Paths {
    pub bundle: String,
    pub journal: String,
}

/// The paths of two bundles.
#[derive(Drop)]
pub struct TwoPaths {
    pub from: Paths,
    pub to: Paths,
}

/// The paths that the text with this number says, counted from 0. None where there is no such text,
/// where it is empty or `-`, or where it is no UTF-8. Want of memory is its only error.
pub fn paths_at<A: Arguments>(
    alloc: Global,
    args: &A,
    number: usize,
) -> Result<Option<Paths>, AllocError>
    ensures none { IfOk result (λ paths. IfSome (A.texts args.now)
        (λ texts. IsNone paths ↔ IsNoPath (slice_get texts number))) }
    ensures some { IfOk result (λ paths. IfSome paths (λ p. (string_bytes p.journal
        ≡ string_bytes p.bundle ++ codes ".jnl") × IfSome (A.texts args.now) (λ texts.
        slice_get texts number ≡ Some (string_bytes p.bundle)))) }
{
    let Some(word) = word_at(alloc, args, number)? else {
        return Ok(None);
    };
    if word.as_slice().is_empty() {
        return Ok(None);
    }
    if word.as_slice() == b"-".as_slice() {
        return Ok(None);
    }
    let Ok(path) = from_utf8(word.as_slice()) else {
        return Ok(None);
    };
    let bundle = String::from_str(alloc, path)?;
    let mut journal = String::from_str(alloc, path)?;
    journal.push_str(".jnl")?;
    Ok(Some(Paths { bundle, journal }))
}

/// The paths that the texts with these two numbers say. None where one of them says no path, or
/// where both are the same bytes, and so one bundle's. Want of memory is its only error.
pub fn two_paths_at<A: Arguments>(
    alloc: Global,
    args: &A,
    from: usize,
    to: usize,
) -> Result<Option<TwoPaths>, AllocError>
    ensures none { IfOk result (λ paths. IfSome (A.texts args.now)
        (λ texts. IsNone paths ↔ IsNoPair (slice_get texts from) (slice_get texts to))) }
    ensures journals { IfOk result (λ paths. IfSome paths (λ p.
        (string_bytes p.from.journal ≡ string_bytes p.from.bundle ++ codes ".jnl")
        × (string_bytes p.to.journal ≡ string_bytes p.to.bundle ++ codes ".jnl"))) }
    ensures some { IfOk result (λ paths. IfSome paths (λ p. IfSome (A.texts args.now) (λ texts.
        (slice_get texts from ≡ Some (string_bytes p.from.bundle))
        × (slice_get texts to ≡ Some (string_bytes p.to.bundle))))) }
{
    let Some(from) = paths_at(alloc, args, from)? else {
        return Ok(None);
    };
    let Some(to) = paths_at(alloc, args, to)? else {
        return Ok(None);
    };
    if from.bundle.as_bytes() == to.bundle.as_bytes() {
        return Ok(None);
    }
    Ok(Some(TwoPaths { from, to }))
}
