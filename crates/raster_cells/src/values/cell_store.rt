//! The values of all pixels, one behind the other, whoever keeps them.

ghost use Rattle.std.specs.Prelude.{◌≡◌, ◌+◌, ◌-◌, ◌*◌, ◌<◌, ◌≤◌, ◌++◌, All, pos, length, get_or, take, drop, slice_set, nat_eq, if◌then◌else◌};
ghost use Rattle.raster_cells.specs.PixelType.{InRange, bytes_of};
ghost use Rattle.raster_cells.specs.CellList.{CellList, KeepsForm, values_in};
ghost use Rattle.raster_cells.specs.Ordered.{FillsPixels, PutsPixels};

use crate::by_kind;
use crate::kind::PixelType;
use crate::values::pixels_from::PixelsFrom;
use crate::values::value_source::{ValueList, ValueSource};

/// How many values are laid down at once where one list is repeated.
const SPAN: usize = 8192;

/// Values of one type, kept as the bytes that stand for them.
pub trait CellStore {
    /// The type and the values.
    ghost cells: { Self → CellList };

    ghost Kept: { Type 0 };

    /// What no call changes.
    ghost kept: { Self → Kept };

    /// The type of the values.
    fn kind(&self) -> PixelType
        ensures { result ≡ (cells self.now).kind };

    /// The value at a place, of the type that is known before.
    fn get_as(&self, kind: PixelType, at: usize) -> i64
        requires kind { kind ≡ (cells self.now).kind }
        requires within { at < length (cells self.now).values }
        ensures value { result ≡ get_or (cells self.now).values at (pos 0) }
        ensures in_range { InRange (cells self.now).kind result };

    /// Puts `count` of the values that are given, from number `n` on, in the place of as many from
    /// `at` on. The type is known before.
    fn put_as<G: ValueSource>(
        &mut self,
        kind: PixelType,
        at: usize,
        given: &G,
        n: usize,
        count: usize,
    )
        requires kind { kind ≡ (cells self.old).kind }
        requires there { n + count ≤ length (G.listed given.now) }
        requires within { at + count ≤ length (cells self.old).values }
        requires in_range { All (InRange (cells self.old).kind) (G.listed given.now) }
        ensures put { cells self.new ≡ record (cells self.old) {
          values = take at (cells self.old).values
              ++ (take count (drop n (G.listed given.now))
              ++ drop (at + count) (cells self.old).values);
        } }
        ensures kept { kept self.new ≡ kept self.old };

    /// Puts the `count` values from `at` on also in the place of those from `to` on, which stand
    /// behind them.
    fn repeat_run(&mut self, at: usize, to: usize, count: usize)
        requires behind { at + count ≤ to }
        requires within { to + count ≤ length (cells self.old).values }
        ensures repeated { cells self.new ≡ record (cells self.old) {
          values = take to (cells self.old).values
              ++ (take count (drop at (cells self.old).values)
              ++ drop (to + count) (cells self.old).values);
        } }
        ensures kept { kept self.new ≡ kept self.old };

    /// Puts the values that so many values' bytes stand for in the place of as many from `at` on.
    fn put_bytes(&mut self, at: usize, count: usize, bytes: &[u8])
        requires within { at + count ≤ length (cells self.old).values }
        requires size { length bytes.now ≡ count * bytes_of (cells self.old).kind }
        ensures put { cells self.new ≡ record (cells self.old) {
          values = take at (cells self.old).values
              ++ (values_in (cells self.old).kind count bytes.now
              ++ drop (at + count) (cells self.old).values);
        } }
        ensures kept { kept self.new ≡ kept self.old };
}

/// Puts the values that are given in the place of as many from `at` on.
pub fn put_all<V: CellStore, G: ValueSource>(cells: &mut V, at: usize, given: &G)
    requires within { at + length (G.listed given.now) ≤ length (V.cells cells.old).values }
    requires in_range { All (InRange (V.cells cells.old).kind) (G.listed given.now) }
    ensures put { V.cells cells.new ≡ record (V.cells cells.old) {
      values = take at (V.cells cells.old).values ++ (G.listed given.now
          ++ drop (at + length (G.listed given.now)) (V.cells cells.old).values);
    } }
    ensures kept { V.kept cells.new ≡ V.kept cells.old }
{
    by_kind!(cells.kind(), kind => put_all_as(cells, kind, at, given))
}

/// Does what `put_all` does, for a type that is known before.
#[inline(always)]
fn put_all_as<V: CellStore, G: ValueSource>(cells: &mut V, kind: PixelType, at: usize, given: &G)
    requires kind { kind ≡ (V.cells cells.old).kind }
    requires within { at + length (G.listed given.now) ≤ length (V.cells cells.old).values }
    requires in_range { All (InRange (V.cells cells.old).kind) (G.listed given.now) }
    ensures put { V.cells cells.new ≡ record (V.cells cells.old) {
      values = take at (V.cells cells.old).values ++ (G.listed given.now
          ++ drop (at + length (G.listed given.now)) (V.cells cells.old).values);
    } }
    ensures kept { V.kept cells.new ≡ V.kept cells.old }
{
    cells.put_as(kind, at, given, 0, given.len());
}

/// The value where the mark is 1, and else what stands there.
#[inline(always)]
pub fn one_of(mark: u32, value: i64, stood: i64) -> i64
    ensures { result ≡ (if nat_eq mark 1 then value else stood) }
{
    if mark == 1 { value } else { stood }
}

/// Puts a value of the type at a place where the mark is 1, and what stands there where it is 0:
/// something is laid down either way, so that no jump depends on the mark.
#[inline(always)]
pub fn put_marked_as<V: CellStore>(cells: &mut V, kind: PixelType, at: usize, mark: u32, value: i64)
    requires kind { kind ≡ (V.cells cells.old).kind }
    requires within { at < length (V.cells cells.old).values }
    requires in_range { InRange (V.cells cells.old).kind value }
    ensures kind { (V.cells cells.new).kind ≡ (V.cells cells.old).kind }
    ensures put { (V.cells cells.new).values ≡ (if nat_eq mark 1
        then slice_set (V.cells cells.old).values at value else (V.cells cells.old).values) }
    ensures kept { V.kept cells.new ≡ V.kept cells.old }
{
    let stood = cells.get_as(kind, at);
    let put = one_of(mark, value, stood);
    put_all_as(cells, kind, at, &ValueList { values: &[put] });
}

/// Puts `count` of the values that are given, from number `n` on, at a depth of as many pixels. The
/// type is known before.
#[inline(always)]
pub fn put_pixels_as<V: CellStore, G: ValueSource>(
    cells: &mut V,
    kind: PixelType,
    pixels: PixelsFrom,
    given: &G,
    n: usize,
    count: usize,
)
    requires kind { kind ≡ (V.cells cells.old).kind }
    requires there { n + count ≤ length (G.listed given.now) }
    requires few { length (V.cells cells.old).values ≤ 16777216 }
    requires within { (pixels.first + count) * pixels.depth ≤ length (V.cells cells.old).values }
    requires in_range { All (InRange (V.cells cells.old).kind) (G.listed given.now) }
    ensures form { KeepsForm (V.cells cells.old) (V.cells cells.new) }
    ensures put { PutsPixels pixels.depth pixels.d pixels.first count
        (take count (drop n (G.listed given.now)))
        (V.cells cells.old).values (V.cells cells.new).values }
    ensures kept { V.kept cells.new ≡ V.kept cells.old }
{
    if pixels.depth == 1 {
        cells.put_as(kind, pixels.first, given, n, count);
    } else {
        put_steps_as(cells, kind, pixels, given, n, count);
    }
}

/// Does what `put_pixels_as` does, one pixel after the other.
#[inline(always)]
fn put_steps_as<V: CellStore, G: ValueSource>(
    cells: &mut V,
    kind: PixelType,
    pixels: PixelsFrom,
    given: &G,
    n: usize,
    count: usize,
)
    requires kind { kind ≡ (V.cells cells.old).kind }
    requires there { n + count ≤ length (G.listed given.now) }
    requires few { length (V.cells cells.old).values ≤ 16777216 }
    requires within { (pixels.first + count) * pixels.depth ≤ length (V.cells cells.old).values }
    requires in_range { All (InRange (V.cells cells.old).kind) (G.listed given.now) }
    ensures form { KeepsForm (V.cells cells.old) (V.cells cells.new) }
    ensures put { PutsPixels pixels.depth pixels.d pixels.first count
        (take count (drop n (G.listed given.now)))
        (V.cells cells.old).values (V.cells cells.new).values }
    ensures kept { V.kept cells.new ≡ V.kept cells.old }
{
    // for the proof: `len` ensures that `n + count` does not wrap
    let _ = given.len();
    for i in 0..count {
        cells.put_as(
            kind,
            (pixels.first + i) * pixels.depth + pixels.d,
            given,
            n + i,
            1,
        );
    }
}

/// Gives each of `count` pixels from `first` on the list of values that is given.
pub fn fill_pixels<V: CellStore, G: ValueSource>(
    cells: &mut V,
    first: usize,
    count: usize,
    pixel: &G,
)
    requires few { length (V.cells cells.old).values ≤ 16777216 }
    requires depth { 0 < length (G.listed pixel.now) }
    requires within { (first + count) * length (G.listed pixel.now)
        ≤ length (V.cells cells.old).values }
    requires in_range { All (InRange (V.cells cells.old).kind) (G.listed pixel.now) }
    ensures form { KeepsForm (V.cells cells.old) (V.cells cells.new) }
    ensures filled { FillsPixels first count (G.listed pixel.now) (V.cells cells.old).values
        (V.cells cells.new).values }
    ensures kept { V.kept cells.new ≡ V.kept cells.old }
{
    if count == 0 {
        return;
    }
    let depth = pixel.len();
    let span = (SPAN / depth).max(1);
    let at = first * depth;
    put_all(cells, at, pixel);
    let mut done = 1;
    while done < count {
        let more = done.min(count - done).min(span);
        cells.repeat_run(at, at + done * depth, more * depth);
        done += more;
    }
}
