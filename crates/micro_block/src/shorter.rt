//! Where a table can be shorter than a list in the simple form.

ghost use Rattle.std.specs.Prelude.{◌≡◌, ℕ, ◌+◌, ◌^◌, ◌<◌, ◌≤◌, length, true, MatchOption};
ghost use Rattle.lut_stuff.specs.Tables.{distinct_above_0};
ghost use Rattle.micro_block.specs.inside.Shorter.{AreLongAbove, BoundsAt, IsLong};

use bit_stuff::stuffed_len;

/// The most entries with which a table of `count` numbers of `width` bits can be shorter, of the
/// numbers of entries that have `k + 1` binary digits: None where with none of them it can.
fn entries_at(count: usize, width: u32, k: u32) -> Option<usize>
    requires count { count ≤ 256 }
    requires width { (0 < width) × (width ≤ 30) }
    requires k { k < 8 }
    ensures { MatchOption result (AreLongAbove count width (k + 1) 0) (BoundsAt count width k) }
{
    let whole = stuffed_len(count, width);
    let rest = 1 + stuffed_len(count, k + 1);
    let least = 1usize << k;
    if whole <= rest + stuffed_len(least, width) {
        return None;
    }
    let most = 8 * (whole - 1 - rest) / width as usize;
    Some(most.min(2 * least - 1))
}

/// The most entries with which a table of `count` numbers of `width` bits can be shorter than the
/// numbers themselves, and 0 where it never can.
fn most_counted(count: usize, width: u32) -> usize
    requires count { count ≤ 256 }
    requires width { (0 < width) × (width ≤ 30) }
    ensures long { (d : ℕ) → result < d → d ≤ 254 → IsLong count width d }
    ensures few { result ≤ 256 }
{
    for i in 0..8 {
        if let Some(most) = entries_at(count, width, 7 - i) {
            return most;
        }
    }
    0
}

/// The most entries for 8 numbers, by their width.
static MOST_OF_8: [u8; 31] = [
    0, 0, 0, 0, 1, 1, 2, 3, 3, 3, 4, 4, 4, 4, 5, 5, 5, 5, 5, 5, 6, 6, 6, 6, 6, 6, 6, 6, 6, 6, 6,
];

/// The most entries for 16 numbers, by their width.
static MOST_OF_16: [u8; 31] = [
    0, 0, 0, 1, 3, 3, 5, 6, 7, 7, 8, 8, 9, 9, 10, 10, 11, 11, 11, 11, 12, 12, 12, 12, 12, 12, 12,
    13, 13, 13, 13,
];

/// The most entries for 64 numbers, by their width.
static MOST_OF_64: [u8; 31] = [
    0, 0, 1, 3, 7, 9, 15, 16, 22, 26, 30, 31, 31, 33, 35, 37, 39, 40, 41, 42, 44, 44, 45, 46, 47,
    48, 48, 49, 49, 50, 50,
];

/// The most entries for 256 numbers, by their width.
static MOST_OF_256: [u8; 31] = [
    0, 0, 1, 3, 7, 15, 31, 34, 62, 63, 75, 91, 105, 116, 126, 127, 127, 134, 141, 147, 152, 157,
    162, 166, 170, 173, 176, 179, 182, 184, 187,
];

/// The same: as it is kept for the numbers of values that whole blocks have, and those of one row
/// or one column, and else counted.
pub(crate) fn most_entries(count: usize, width: u32) -> usize
    requires count { count ≤ 256 }
    requires width { (0 < width) × (width ≤ 30) }
    ensures long { (d : ℕ) → result < d → d ≤ 254 → IsLong count width d }
    ensures few { result ≤ 256 }
{
    match count {
        8 => usize::from(MOST_OF_8[width as usize]),
        16 => usize::from(MOST_OF_16[width as usize]),
        64 => usize::from(MOST_OF_64[width as usize]),
        256 => usize::from(MOST_OF_256[width as usize]),
        _ => most_counted(count, width),
    }
}

/// Whether more different numbers above 0 than the bound are found, told apart by their remainders
/// modulo `N`: so it may answer no where there are more. It ends as soon as it knows.
pub(crate) fn has_more<const N: usize>(qs: &[u32], bound: usize) -> bool
    requires places { 0 < N }
    requires few { length qs.now ≤ 256 }
    requires bound { bound ≤ 256 }
    ensures { result ≡ true → bound < distinct_above_0 qs.now }
{
    let mut seen = [false; N];
    let mut count = 0;
    for q in qs {
        let place = *q as usize % N;
        count += usize::from(!seen[place]);
        seen[place] = true;
        if count > bound + 1 {
            return true;
        }
    }
    false
}
