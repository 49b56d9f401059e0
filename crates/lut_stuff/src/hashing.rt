//! The different values of a list of any numbers, by a slot for each hash.

ghost use Rattle.std.specs.Prelude.{◌≡◌, ◌+◌, ◌<◌, ◌≤◌, ◌++◌, ◌∷◌, [], ℕ, List, length, map, min, take};
ghost use Rattle.lut_stuff.specs.Tables.{distinct_above_0, index_in, occurs};
ghost use Rattle.lut_stuff.specs.inside.Slots.{AreDistinct, ArePlaces, AreSlots, slot_of};

/// The slot of a number: the highest 8 bits of its product with an odd number.
fn slot_of(value: u32) -> usize
    ensures slot { result ≡ slot_of value }
    ensures byte { result < 256 }
{
    (value.wrapping_mul(0x9E37_79B1) >> 24) as usize
}

/// Whether the value is one of the numbers. All of them are looked at, several at a time.
fn has_value(numbers: &[u32], value: u32) -> bool
    ensures { result ≡ occurs numbers.now value }
{
    let mut found = false;
    for number in numbers {
        found |= *number == value;
    }
    found
}

/// Adds a value to the `count` ones that stand in front, unless it is 0 or known; how many stand
/// there then. Only where another number took the slot of the value are the known ones looked at.
fn gather_value(value: u32, slots: &mut [u32], found: &mut [u32], count: usize) -> usize
    requires slots { length slots.old ≡ 256 }
    requires room { count < length found.old }
    ensures within { result ≤ count + 1 }
    ensures slots { (values : List ℕ) → AreSlots values slots.old →
        AreDistinct values (take count found.old) → AreSlots (values ++ value ∷ []) slots.new }
    ensures found { (values : List ℕ) → AreSlots values slots.old →
        AreDistinct values (take count found.old) →
        AreDistinct (values ++ value ∷ []) (take result found.new) }
{
    let slot = slot_of(value);
    let last = slots[slot];
    if value == 0 || last == value {
        return count;
    }
    slots[slot] = value;
    if last > 0 && has_value(&found[..count], value) {
        return count;
    }
    found[count] = value;
    count + 1
}

/// Writes the different values above 0 over the front of `found`, in the order in which they first
/// come, and stops behind the first 255; how many it wrote.
pub(crate) fn gather_distinct(values: &[u32], found: &mut [u32]) -> usize
    requires { length values.now ≤ length found.old }
    ensures within { result ≤ length found.new }
    ensures count { result ≡ min 255 (distinct_above_0 values.now) }
    ensures distinct { distinct_above_0 values.now ≤ 254 →
        AreDistinct values.now (take result found.new) }
{
    let mut slots = [0; 256];
    let mut count = 0;
    for value in values {
        count = gather_value(*value, &mut slots, found, count);
        if count > 254 {
            return count;
        }
    }
    count
}

/// The place of a value in the table behind its entry 0: how many entries are at most the value.
/// All of them are looked at, several at a time, which is faster than halving so few.
fn index_of(entries: &[u32], value: u32) -> u32
    requires few { length entries.now ≤ 1024 }
    ensures { result ≡ index_in entries.now value }
{
    let mut place = 0;
    for entry in entries {
        place += u32::from(*entry <= value);
    }
    place
}

/// The place of a value in the table, which stands beside its slot from then on.
fn place_of(value: u32, entries: &[u32], slots: &mut [u32], places: &mut [u32]) -> u32
    requires few { length entries.now ≤ 1024 }
    requires slots { length slots.old ≡ 256 }
    requires places { length places.old ≡ 256 }
    requires before { ArePlaces entries.now slots.old places.old }
    ensures place { result ≡ index_in entries.now value }
    ensures after { ArePlaces entries.now slots.new places.new }
{
    let slot = slot_of(value);
    if slots[slot] == value {
        return places[slot];
    }
    let place = index_of(entries, value);
    slots[slot] = value;
    places[slot] = place;
    place
}

/// Writes the place of each value in the table.
pub(crate) fn index_all(values: &[u32], entries: &[u32], out: &mut [u32])
    requires few { length entries.now ≤ 1024 }
    requires room { length out.old ≡ length values.now }
    ensures { out.new ≡ map (index_in entries.now) values.now }
{
    let mut slots = [0; 256];
    let mut places = [index_of(entries, 0); 256];
    for (i, value) in values.iter().enumerate() {
        out[i] = place_of(*value, entries, &mut slots, &mut places);
    }
}
