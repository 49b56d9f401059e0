//! The slots of a bundle that have a tile.

ghost use Rattle.std.specs.Prelude.{◌≡◌, ◌+◌, ◌<◌, ℕ, List, IfOk, OnOk};
ghost use Rattle.bundle_index.specs.Sizes.{slot_count};
ghost use Rattle.bundle_store.specs.Session.{Serves};
ghost use Rattle.bundle_tiles.specs.Exported.{slots_below, slots_of};

use bundle_index::{SLOT_COUNT, Slot};
use bundle_store::Session;
use std::alloc::{AllocError, Global};

/// Adds the slot of this number, if its entry names a tile.
fn add_filled(session: &Session, number: u16, slots: &mut Vec<Slot>) -> Result<(), AllocError>
    requires { number < slot_count }
    ensures { (bundle : List ℕ) → Serves session.now bundle →
        slots.old.items ≡ slots_below bundle number →
        OnOk result (slots.new.items ≡ slots_below bundle (number + 1)) }
{
    let Some(slot) = Slot::of_number(number) else {
        return Ok(());
    };
    if session.kept_entry(slot).size > 0 {
        slots.push(slot)?;
    }
    Ok(())
}

/// The slots whose entries name a tile, in their order, by no device call.
pub fn filled_slots(alloc: Global, session: &Session) -> Result<Vec<Slot>, AllocError>
    ensures { (bundle : List ℕ) → Serves session.now bundle →
        IfOk result (λ slots. slots.items ≡ slots_of bundle) }
{
    let mut slots = Vec::new(alloc);
    for number in 0..SLOT_COUNT {
        match add_filled(session, number, &mut slots) {
            Ok(()) => {}
            Err(refused) => return Err(refused),
        }
    }
    Ok(slots)
}
