//! Which source counts in each slot.

ghost use Rattle.std.specs.Prelude.{◌≡◌, ◌<◌, ℕ, List, IfSome, length};
ghost use Rattle.bundle_index.specs.Sizes.{slot_count};
ghost use Rattle.bundle_pack.specs.Chosen.{chosen_bytes, chosen_size};
ghost use Rattle.bundle_pack.specs.inside.Collecting.{AreServed, IsChoice};

use bundle_index::{SLOT_COUNT, Slot};
use bundle_store::Session;

/// An entry that counts: the number of its source, and its size.
#[derive(Clone, Copy)]
pub(crate) struct Choice {
    pub(crate) at: usize,
    pub(crate) size: u32,
}

/// The entry that counts in the slot, if one has a size: the last of those.
pub(crate) fn choice_at(sessions: &[Session], slot: Slot) -> Option<Choice>
    ensures within { IfSome result (λ c. c.at < length sessions.now) }
    ensures small { IfSome result (λ c. c.size < 16777216) }
    ensures is { (bundles : List (List ℕ)) → AreServed sessions.now bundles →
        IsChoice bundles slot result }
{
    let mut at = sessions.len();
    while at > 0 {
        at -= 1;
        let size = sessions[at].kept_entry(slot).size;
        if size > 0 {
            return Some(Choice { at, size });
        }
    }
    None
}

/// The size of the entry that counts in the slot of this number, and 0 where none has one.
fn size_at(sessions: &[Session], number: u16) -> u32
    requires { number < slot_count }
    ensures small { result < 16777216 }
    ensures is { (bundles : List (List ℕ)) → AreServed sessions.now bundles →
        result ≡ chosen_size bundles number }
{
    let Some(slot) = Slot::of_number(number) else {
        return 0;
    };
    match choice_at(sessions, slot) {
        Some(choice) => choice.size,
        None => 0,
    }
}

/// How many bytes the tiles that count have together.
pub(crate) fn bytes_of_chosen(sessions: &[Session]) -> u64
    ensures { (bundles : List (List ℕ)) → AreServed sessions.now bundles →
        result ≡ chosen_bytes bundles slot_count }
{
    let mut sum = 0;
    for number in 0..SLOT_COUNT {
        sum += u64::from(size_at(sessions, number));
    }
    sum
}
