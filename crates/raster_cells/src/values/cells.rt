//! Values of one type that a raster keeps.

ghost use Rattle.std.specs.Prelude.{◌-◌, ◌≡◌, ◌+◌, ◌*◌, ◌<◌, ◌≤◌, ◌++◌, pos, IfOk, All, length, get_or, take, drop, replicate, slice_set};
ghost use Rattle.raster_cells.specs.PixelType.{InRange, bytes_of};
ghost use Rattle.raster_cells.specs.Values.{values_bytes};
ghost use Rattle.raster_cells.specs.CellList.{CellList, values_in};
ghost use Rattle.raster_cells.specs.Cleared.{cleared};

use crate::kind::PixelType;
use crate::values::byte_runs;
use crate::values::cell_bytes::CellBytes;
use crate::values::cell_store::{CellStore, fill_pixels, put_all};
use crate::values::value_bytes::{place, value_at};
use crate::values::value_source::{ValueList, ValueSource};
use std::alloc::{AllocError, Global};
use std::marker::Model;

/// Values of one type, kept as the bytes that stand for them in a file.
#[derive(Drop)]
pub struct Cells {
    kind: PixelType,
    count: usize,
    bytes: Vec<u8>,
}

impl Model for Cells {
    ghost use Rattle.raster_cells.specs.CellList.{CellList};

    ghost Value = { CellList };

    ghost use Rattle.raster_cells.specs.inside.CellView.{seen_cells, IsCells};

    ghost view = { seen_cells };

    ghost invariant = { IsCells };
}

/// Sets a run of bytes to 0.
fn clear_bytes(bytes: &mut Vec<u8>, at: usize, count: usize)
    requires { at + count ≤ length bytes.old.items }
    ensures { bytes.new.items ≡ take at bytes.old.items
        ++ (replicate count 0 ++ drop (at + count) bytes.old.items) }
{
    byte_runs::clear(&mut bytes[..], at, count);
}

/// Lays bytes over as many from `at` on.
fn lay_bytes(bytes: &mut Vec<u8>, at: usize, run: &[u8])
    requires { at + length run.now ≤ length bytes.old.items }
    ensures { bytes.new.items ≡ take at bytes.old.items
        ++ (run.now ++ drop (at + length run.now) bytes.old.items) }
{
    byte_runs::lay(&mut bytes[..], at, run);
}

/// Lays the bytes from `from` to `end` also over as many from `to` on, which stand behind them.
fn repeat_bytes(bytes: &mut Vec<u8>, from: usize, end: usize, to: usize)
    requires order { from ≤ end }
    requires behind { end ≤ to }
    requires within { to + (end - from) ≤ length bytes.old.items }
    ensures { bytes.new.items ≡ take to bytes.old.items
        ++ (take (end - from) (drop from bytes.old.items)
        ++ drop (to + (end - from)) bytes.old.items) }
{
    byte_runs::repeat(&mut bytes[..], from, end, to);
}

/// So many bytes 0.
fn zeros(alloc: Global, count: usize) -> Result<Vec<u8>, AllocError>
    ensures { IfOk result (λ bytes. bytes.items ≡ replicate count 0) }
{
    vec![in alloc; 0u8; count]
}

impl CellStore for Cells {
    ghost cells = { λ c. c };

    ghost Kept = { Unit {0} };

    ghost kept = { λ c. tt };

    #[inline(always)]
    fn kind(&self) -> PixelType {
        Cells::kind(self)
    }

    #[inline(always)]
    fn get_as(&self, kind: PixelType, at: usize) -> i64 {
        value_at(kind, self.count, &self.bytes, at)
    }

    #[inline(always)]
    fn put_as<G: ValueSource>(
        &mut self,
        kind: PixelType,
        at: usize,
        given: &G,
        n: usize,
        count: usize,
    ) {
        let from = place(kind, self.count, at);
        given.write_as(kind, n, count, &mut self.bytes[from..]);
    }

    fn repeat_run(&mut self, at: usize, to: usize, count: usize) {
        let from = place(self.kind, self.count, at);
        let end = place(self.kind, self.count, at + count);
        let dest = place(self.kind, self.count, to);
        repeat_bytes(&mut self.bytes, from, end, dest);
    }

    fn put_bytes(&mut self, at: usize, count: usize, bytes: &[u8]) {
        let from = place(self.kind, self.count, at);
        lay_bytes(&mut self.bytes, from, bytes);
    }
}

impl Cells {
    /// So many values 0.
    pub fn new(alloc: Global, kind: PixelType, count: usize) -> Result<Cells, AllocError>
        requires { count ≤ 16777216 }
        ensures { IfOk result (λ c. c ≡ record { kind = kind; values = replicate count (pos 0) }) }
    {
        let bytes = zeros(alloc, place(kind, count, count))?;
        Ok(Cells { kind, count, bytes })
    }

    /// The values that bytes stand for, of which there are so many.
    pub fn of_bytes(
        alloc: Global,
        kind: PixelType,
        count: usize,
        bytes: &[u8],
    ) -> Result<Cells, AllocError>
        requires few { count ≤ 16777216 }
        requires size { length bytes.now ≡ count * bytes_of kind }
        ensures { IfOk result (λ c. c
            ≡ record { kind = kind; values = values_in kind count bytes.now }) }
    {
        let mut kept = Vec::with_capacity(alloc, bytes.len())?;
        kept.extend_from_slice(bytes)?;
        Ok(Cells {
            kind,
            count,
            bytes: kept,
        })
    }

    /// The values that so many values' bytes stand for, which are kept.
    pub fn of_vec(kind: PixelType, count: usize, bytes: Vec<u8>) -> Cells
        requires few { count ≤ 16777216 }
        requires size { length bytes.items ≡ count * bytes_of kind }
        ensures { result ≡ record { kind = kind; values = values_in kind count bytes.items } }
    {
        Cells { kind, count, bytes }
    }

    /// The type of the values.
    pub fn kind(&self) -> PixelType
        ensures { result ≡ self.now.kind }
    {
        self.kind
    }

    /// The value at a place.
    pub fn get(&self, at: usize) -> i64
        requires { at < length self.now.values }
        ensures value { result ≡ get_or self.now.values at (pos 0) }
        ensures in_range { InRange self.now.kind result }
    {
        value_at(self.kind, self.count, &self.bytes, at)
    }

    /// The same values, to be read.
    #[inline(always)]
    pub fn read(&self) -> CellBytes
        ensures { result ≡ self.now }
    {
        CellBytes::over(self.kind, self.count, &self.bytes)
    }

    /// The bytes of all values.
    pub fn bytes(&self) -> &[u8]
        ensures { result.now ≡ values_bytes self.now.kind self.now.values }
    {
        &self.bytes
    }

    /// Values equal to these.
    pub fn copy(&self, alloc: Global) -> Result<Cells, AllocError>
        ensures { IfOk result (λ c. c ≡ self.now) }
    {
        let mut bytes = Vec::with_capacity(alloc, self.bytes.len())?;
        bytes.extend_from_slice(&self.bytes)?;
        Ok(Cells {
            kind: self.kind,
            count: self.count,
            bytes,
        })
    }

    /// The bytes of a run of values, one behind the other.
    pub fn bytes_of_run(&self, at: usize, count: usize) -> &[u8]
        requires { at + count ≤ length self.now.values }
        ensures { result.now ≡ values_bytes self.now.kind (take count (drop at self.now.values)) }
    {
        self.read().bytes_of_run(at, count)
    }

    /// Puts a value of the type at a place.
    pub fn set(&mut self, at: usize, value: i64)
        requires within { at < length self.old.values }
        requires in_range { InRange self.old.kind value }
        ensures { self.new ≡ record self.old { values = slice_set self.old.values at value } }
    {
        put_all(self, at, &ValueList { values: &[value] });
    }

    /// Sets a run of values to 0.
    pub fn clear(&mut self, at: usize, count: usize)
        requires { at + count ≤ length self.old.values }
        ensures { self.new ≡ record self.old { values = cleared self.old.values at count } }
    {
        let from = place(self.kind, self.count, at);
        let end = place(self.kind, self.count, at + count);
        clear_bytes(&mut self.bytes, from, end - from);
    }

    /// Sets every value to one of the type.
    pub fn fill(&mut self, value: i64)
        requires { InRange self.old.kind value }
        ensures { self.new ≡ record self.old { values = replicate (length self.old.values) value } }
    {
        let count = self.count;
        fill_pixels(self, 0, count, &ValueList { values: &[value] });
    }
}
