//! The first of the fewest.

ghost use Rattle.std.specs.Prelude.{◌≡◌, ℕ, ◌<◌, ◌≤◌, get_or, MatchOption, Some, None};
ghost use Rattle.micro_block.specs.Fewest.{IsFirstLeast};
ghost use Rattle.micro_block.specs.inside.SoFar.{former_of};

/// The place of the first of the least sizes, of those that are there, and that size. None where
/// none is there.
#[inline(always)]
pub fn first_least(sizes: &[Option<usize>]) -> Option<(usize, usize)>
    ensures { MatchOption result ((i n : ℕ) → get_or sizes.now i None ≡ Some n → ⊥)
        (λ p. IsFirstLeast (λ m. m) sizes.now p.0 p.1) }
{
    let mut best = None;
    for (k, size) in sizes.iter().enumerate() {
        best = smaller_of(best, k, *size);
    }
    best
}

// The place and size so far, or the next where it is smaller.
#[inline(always)]
fn smaller_of(best: Option<(usize, usize)>, k: usize, size: Option<usize>) -> Option<(usize, usize)>
    ensures { result ≡ former_of best k size }
{
    match (best, size) {
        (None, None) => None,
        (None, Some(n)) => Some((k, n)),
        (Some(b), None) => Some(b),
        (Some((at, least)), Some(n)) => {
            if n < least {
                Some((k, n))
            } else {
                Some((at, least))
            }
        }
    }
}
