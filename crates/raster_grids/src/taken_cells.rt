//! Values of one type whose bytes are taken from a source.

ghost use Rattle.std.specs.Prelude.{◌≡◌, ◌+◌, ◌-◌, ◌*◌, ◌≤◌, pos, IfOk, OnErr, length, replicate};
ghost use Rattle.outside_io.specs.streams.Faults.{CountsFaults};
ghost use Rattle.raster_cells.specs.PixelType.{bytes_of};
ghost use Rattle.raster_grids.specs.Taken.{TookSome};
ghost use Rattle.raster_grids.specs.inside.TakenRun.{Laid, PutsRun, TakesRun, behind};

use crate::ahead::Ahead;
use outside_io::{Failed, Source};
use raster_cells::{Cells, PixelType, place};
use std::alloc::{AllocError, Global};
use std::marker::Model;

/// Values of one type, of which runs are taken from a source: straight to their place, so that no
/// byte is copied once more. A contract sees the type and the values.
#[derive(Drop)]
pub struct TakenCells {
    kind: PixelType,
    count: usize,
    bytes: Vec<u8>,
}

impl Model for TakenCells {
    ghost use Rattle.raster_cells.specs.CellList.{CellList, cells_in};
    ghost use Rattle.raster_cells.specs.LentBytes.{AreHeld};

    ghost Value = { CellList };

    ghost view = { λ c. cells_in c.kind c.count c.bytes.items };

    ghost invariant = { λ c. AreHeld c.kind c.count c.bytes.items };
}

/// So many bytes 0.
fn zeros(alloc: Global, count: usize) -> Result<Vec<u8>, AllocError>
    ensures { IfOk result (λ bytes. bytes.items ≡ replicate count 0) }
{
    vec![in alloc; 0u8; count]
}

/// Takes bytes over those from `from` to `end`, and answers how many.
fn take_into<S: Source>(
    ahead: &mut Ahead,
    src: &mut S,
    bytes: &mut Vec<u8>,
    from: usize,
    end: usize,
) -> Result<usize, Failed>
    requires order { from ≤ end }
    requires within { end ≤ length bytes.old.items }
    requires few { end - from ≤ length ahead.old.waiting + ahead.old.more }
    ensures taken { Laid from end bytes.old.items bytes.new.items (λ run. TakesRun result
        (behind ahead.old.waiting (S.left src.old))
        (behind ahead.new.waiting (S.left src.new)) run) }
    ensures more { IfOk result (λ n. length ahead.new.waiting + ahead.new.more + n
        ≡ length ahead.old.waiting + ahead.old.more) }
    ensures some { OnErr result
        (TookSome (behind ahead.old.waiting (S.left src.old)) (S.left src.new)) }
    ensures counted { CountsFaults result (S.faults src.old) (S.faults src.new) }
{
    let run = &mut bytes[from..end];
    ahead.take(src, run)
}

impl TakenCells {
    /// So many values 0.
    pub fn new(alloc: Global, kind: PixelType, count: usize) -> Result<TakenCells, AllocError>
        requires { count ≤ 16777216 }
        ensures { IfOk result (λ c. c ≡ record { kind = kind; values = replicate count (pos 0) }) }
    {
        let bytes = zeros(alloc, place(kind, count, count))?;
        Ok(TakenCells { kind, count, bytes })
    }

    /// The type of the values.
    pub fn kind(&self) -> PixelType
        ensures { result ≡ self.now.kind }
    {
        self.kind
    }

    /// Takes the bytes of a run of values from a source, and answers how many there were. The
    /// values are then those that the bytes stand for, where they are all there.
    pub fn take_run<S: Source>(
        &mut self,
        ahead: &mut Ahead,
        src: &mut S,
        at: usize,
        count: usize,
    ) -> Result<usize, Failed>
        requires within { at + count ≤ length self.old.values }
        requires few { count * bytes_of self.old.kind
            ≤ length ahead.old.waiting + ahead.old.more }
        ensures put { PutsRun self.old self.new at count (λ run. TakesRun result
            (behind ahead.old.waiting (S.left src.old))
            (behind ahead.new.waiting (S.left src.new)) run) }
        ensures more { IfOk result (λ n. length ahead.new.waiting + ahead.new.more + n
            ≡ length ahead.old.waiting + ahead.old.more) }
        ensures some { OnErr result
            (TookSome (behind ahead.old.waiting (S.left src.old)) (S.left src.new)) }
        ensures counted { CountsFaults result (S.faults src.old) (S.faults src.new) }
    {
        let from = place(self.kind, self.count, at);
        let end = place(self.kind, self.count, at + count);
        take_into(ahead, src, &mut self.bytes, from, end)
    }

    /// These values.
    pub fn into_cells(self) -> Cells
        ensures { result ≡ self }
    {
        let TakenCells { kind, count, bytes } = self;
        Cells::of_vec(kind, count, bytes)
    }
}
