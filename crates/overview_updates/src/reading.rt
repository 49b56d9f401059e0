//! What a bundle is read through.

ghost use Rattle.std.specs.Prelude.{◌≡◌, [], IfOk};

use bundle_index::{SLOT_COUNT, Slot};
use bundle_store::{Ahead, Session};
use std::alloc::{AllocError, Global};

/// How many bytes there is room for, of the rows with even numbers and of those with odd ones.
const ROOM: usize = 524288;

/// What a bundle is read through: the session that serves it, and what was read at once of the rows
/// with even numbers, in which the upper two of four tiles lie, and of those with odd ones.
#[derive(Drop)]
pub(crate) struct Reading<'a> {
    pub(crate) session: &'a Session,
    pub(crate) upper: Ahead,
    pub(crate) lower: Ahead,
}

/// Room for what is read at once of each second row, from row 0 or row 1 on, in which nothing was
/// read; the slots of the rows between are passed over.
fn each_second_row(alloc: Global, first: u8) -> Result<Ahead, AllocError>
    ensures { IfOk result (λ ahead. ahead.bytes ≡ []) }
{
    let mut ahead = Ahead::new(alloc, ROOM)?;
    for number in 0..SLOT_COUNT {
        if let Some(slot) = Slot::of_number(number) {
            if slot.row() % 2 != first {
                ahead.pass_over(slot);
            }
        }
    }
    Ok(ahead)
}

impl<'a> Reading<'a> {
    /// Reading through this session, by which nothing was read.
    pub(crate) fn new(alloc: Global, session: &'a Session) -> Result<Reading<'a>, AllocError>
        ensures session { IfOk result (λ r. r.session.now ≡ session.now) }
        ensures upper { IfOk result (λ r. r.upper.bytes ≡ []) }
        ensures lower { IfOk result (λ r. r.lower.bytes ≡ []) }
    {
        Ok(Reading {
            session,
            upper: each_second_row(alloc, 0)?,
            lower: each_second_row(alloc, 1)?,
        })
    }
}
