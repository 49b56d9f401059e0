//! What is read at once of each source.

ghost use Rattle.std.specs.Prelude.{◌≡◌, [], All, IfOk, length};

use crate::chosen::choice_at;
use bundle_index::{SLOT_COUNT, Slot};
use bundle_store::{Ahead, Session};
use std::alloc::{AllocError, Global};

/// How many bytes there is room for, of all sources together.
const ROOM: usize = 1048576;

/// For each of so many sources an equal part of the room, in which nothing was read.
fn new_aheads(alloc: Global, count: usize) -> Result<Vec<Ahead>, AllocError>
    ensures many { IfOk result (λ aheads. length aheads.items ≡ count) }
    ensures none { IfOk result (λ aheads. All (λ a. a.bytes ≡ []) aheads.items) }
{
    let mut aheads = Vec::new(alloc);
    for at in 0..count {
        aheads.push(Ahead::new(alloc, ROOM / count)?)?;
    }
    Ok(aheads)
}

/// Passes over the slot of this number in each source in front of the one whose tile counts there.
fn pass_over(sessions: &[Session], number: u16, aheads: &mut [Ahead])
    requires { length aheads.old ≡ length sessions.now }
    ensures { aheads.new ≡ aheads.old }
{
    let Some(slot) = Slot::of_number(number) else {
        return;
    };
    let Some(choice) = choice_at(sessions, slot) else {
        return;
    };
    for at in 0..choice.at {
        aheads[at].pass_over(slot);
    }
}

/// For each source room for what is read of it at once, in which nothing was read; each slot is
/// passed over of which the tile of another source counts.
pub(crate) fn aheads_of(alloc: Global, sessions: &[Session]) -> Result<Vec<Ahead>, AllocError>
    ensures many { IfOk result (λ aheads. length aheads.items ≡ length sessions.now) }
    ensures none { IfOk result (λ aheads. All (λ a. a.bytes ≡ []) aheads.items) }
{
    let mut aheads = new_aheads(alloc, sessions.len())?;
    for number in 0..SLOT_COUNT {
        pass_over(sessions, number, aheads.as_mut_slice());
    }
    Ok(aheads)
}
