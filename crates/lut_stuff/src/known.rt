//! Lists in the table form of values of which the different ones are known before.

ghost use Rattle.std.specs.Prelude.{◌≡◌, ℕ, ◌+◌, ◌*◌, ◌^◌, ◌<◌, ◌≤◌, ◌++◌, ◌∷◌, All, IfSome, List, drop, length, map, min, true};
ghost use Rattle.bit_stuff.specs.Head.{head_size, list_head_bytes};
ghost use Rattle.bit_stuff.specs.Simple.{binary_digits, width_of};
ghost use Rattle.bit_stuff.specs.Stuffed.{stuffed_bytes, stuffed_size};
ghost use Rattle.lut_stuff.specs.Ranked.{known_bytes};
ghost use Rattle.lut_stuff.specs.Tables.{distinct_above_0, entries_of, index_in, table_bytes, table_size};

use crate::writing::write_tabled;
use bit_stuff::{digit_count, head_len, stuffed_len, write_head};

/// How many bytes `write_table` takes for so many values, the greatest of which has `width` binary
/// digits, and so many different ones of which are above 0: None where none is, or more than 254
/// are.
pub fn known_len(count: usize, width: u32, different: usize) -> Option<usize>
    requires count { count ≤ 1024 }
    requires width { width ≤ 31 }
    ensures value { (values : List ℕ) → length values ≡ count → width_of values ≡ width
        → distinct_above_0 values ≡ different → result ≡ table_size values }
    ensures size { IfSome result (λ n. (different ≤ 254) × (n ≡ head_size count
        + (1 + stuffed_size different width + stuffed_size count (binary_digits different)))) }
{
    if different == 0 || different > 254 {
        return None;
    }
    let entries = stuffed_len(different, width);
    let indexes = stuffed_len(count, digit_count(different as u32));
    Some(head_len(count as u32) + 1 + entries + indexes)
}

/// Writes the list in the table form with this width, these entries and these indexes over the
/// front of `out`; how many bytes it takes.
pub(crate) fn write_known(width: u32, entries: &[u32], indexes: &[u32], out: &mut [u8]) -> usize
    requires some { 0 < length entries.now }
    requires few { length entries.now ≤ 254 }
    requires count { length indexes.now ≤ 1024 }
    requires width { width ≤ 31 }
    requires entries { All (λ v. v < 2 ^ width) entries.now }
    requires indexes { All (λ v. v < 2 ^ binary_digits (length entries.now)) indexes.now }
    requires room { length (known_bytes width entries.now indexes.now) ≤ length out.old }
    ensures count { result ≡ length (known_bytes width entries.now indexes.now) }
    ensures bytes { out.new ≡ known_bytes width entries.now indexes.now ++ drop result out.old }
    ensures table { (values : List ℕ) → width ≡ width_of values → entries.now ≡ entries_of values
        → indexes.now ≡ map (index_in (entries_of values)) values
        → known_bytes width entries.now indexes.now ≡ table_bytes values }
{
    let (count, digits) = (indexes.len(), digit_count(entries.len() as u32));
    let data = stuffed_len(entries.len(), width) + stuffed_len(count, digits);
    let used = write_head(width, true, count as u32, out);
    write_tabled(entries, width, indexes, &mut out[used..used + 1 + data]);
    used + 1 + data
}
