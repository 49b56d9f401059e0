//! Grid files read.

ghost use Rattle.std.specs.Prelude.{◌≡◌, ℕ, ◌+◌, ◌-◌, ◌*◌, ◌^◌, ◌<◌, ◌≤◌, codes, List, IfOk, IfErr, OnOk, OnErr, MatchResult, length, get_or, pos, false, replicate};
ghost use Rattle.raster_cells.specs.PixelType.{bytes_of};
ghost use Rattle.raster_cells.specs.Shapes.{IsShape};
ghost use Rattle.raster_values.specs.Raster.{values_of};
ghost use Rattle.raster_values.specs.View.{pixels_of};
ghost use Rattle.raster_values.specs.Ordered.{ChangesMarked};
ghost use Rattle.raster_grids.specs.inside.Heads.{IsSizeFault};
ghost use Rattle.raster_cells.specs.Values.{values_bytes};
ghost use Rattle.raster_grids.specs.ReadGrid.{IsHead, AreMarks, AreLawful, TookGrid, IsToldFault, CountsGridStop, number_at, magic_faults, head_faults, mark_faults, value_faults, behind_head, grid_faults};
ghost use Rattle.raster_grids.specs.Taken.{TookBytes, TookSome};
ghost use Rattle.raster_grids.specs.BandsGrid.{IsBandGrid};

use crate::PIECE;
use crate::ahead::Ahead;
use crate::taken_cells::TakenCells;
use byteorder::{ByteOrder, LittleEndian};
use outside_io::{Failed, Source, take_all};
use raster_cells::{Mask, PixelType, is_shape};
use raster_values::Raster;
use std::alloc::{AllocError, Global};

/// The letters of the grid of one raster.
pub(crate) const ONE: [u8; 4] = *b"LGR1";

/// Why bytes do not begin with a grid.
#[derive(Clone, Copy, Debug, PartialEq, Eq)]
pub enum GridReason {
    /// The bytes end before the grid does.
    Truncated,
    /// The first four bytes are not `LGR1`, nor `LGR2` where bands are read.
    BadMagic,
    /// The type's number is above 5.
    BadType,
    /// The number of rows, columns or depths is 0, or that of bands is not 2 to 16 behind `LGR2`.
    BadSize,
    /// There are more than 65,536 depths, or more than 2^24 values, in one band or in all.
    TooLarge,
    /// A mark is neither 0 nor 1.
    BadMark,
}

/// What is wrong first in bytes that do not begin with a grid, and where.
#[derive(Clone, Copy, Debug, PartialEq, Eq)]
pub struct GridFault {
    pub reason: GridReason,
    pub place: u64,
}

/// Why no grid was read.
#[derive(Clone, Copy, Debug, PartialEq, Eq)]
pub enum GridStop {
    /// The bytes do not begin with a grid.
    Fault(GridFault),
    /// The source failed.
    Source,
    /// There is no memory for the raster.
    OutOfMemory,
}

impl From<Failed> for GridStop {
    ghost use Rattle.raster_grids.specs.declared.reading.GridStop.TheVariants.{Source};

    ghost from_gives = { λ _ e. e ≡ Source };

    fn from(_: Failed) -> GridStop {
        GridStop::Source
    }
}

impl From<AllocError> for GridStop {
    ghost use Rattle.raster_grids.specs.declared.reading.GridStop.TheVariants.{OutOfMemory};

    ghost from_gives = { λ _ e. e ≡ OutOfMemory };

    fn from(_: AllocError) -> GridStop {
        GridStop::OutOfMemory
    }
}

impl From<GridFault> for GridStop {
    ghost use Rattle.raster_grids.specs.declared.reading.GridStop.TheVariants.{Fault};

    ghost from_gives = { λ f e. e ≡ Fault f };

    fn from(fault: GridFault) -> GridStop {
        GridStop::Fault(fault)
    }
}

/// What the first 17 bytes of a grid say.
#[derive(Clone, Copy)]
pub struct Head {
    pub kind: PixelType,
    pub rows: u32,
    pub cols: u32,
    pub depth: u32,
}

/// A fault at a place.
pub(crate) fn fault(reason: GridReason, place: usize) -> GridFault
    ensures reason { result.reason ≡ reason }
    ensures place { result.place ≡ place }
{
    GridFault {
        reason,
        place: place as u64,
    }
}

/// The number at a place of the head, which is there and is not 0.
fn size_at(bytes: &[u8], at: usize) -> Result<u32, GridFault>
    requires length { length bytes.now ≤ 17 }
    requires at { at ≤ 13 }
    ensures ok { IfOk result
        (λ n. (at + 4 ≤ length bytes.now) × ((n ≡ number_at bytes.now at) × (0 < n))) }
    ensures err { IfErr result (λ f. IsSizeFault bytes.now at f.place f.reason) }
{
    if bytes.len() < at + 4 {
        return Err(fault(GridReason::Truncated, bytes.len()));
    }
    let size = LittleEndian::read_u32(&bytes[at..]);
    if size == 0 {
        return Err(fault(GridReason::BadSize, at));
    }
    Ok(size)
}

/// The head with these letters that the bytes are, of which 17 are needed and looked at.
pub(crate) fn head_of(magic: [u8; 4], bytes: &[u8]) -> Result<Head, GridFault>
    requires { length bytes.now ≤ 17 }
    ensures { MatchResult result (λ h. IsHead magic bytes.now h)
        (λ f. magic_faults magic bytes.now f.place f.reason × (f.place ≤ 17)) }
{
    let cut = fault(GridReason::Truncated, bytes.len());
    if bytes.len() < 4 {
        return Err(cut);
    }
    if bytes[..4] != magic[..] {
        return Err(fault(GridReason::BadMagic, 0));
    }
    if bytes.len() < 5 {
        return Err(cut);
    }
    let Some(kind) = PixelType::of_code(bytes[4]) else {
        return Err(fault(GridReason::BadType, 4));
    };
    let rows = size_at(bytes, 5)?;
    let cols = size_at(bytes, 9)?;
    let depth = size_at(bytes, 13)?;
    if !is_shape(rows, cols, depth) {
        return Err(fault(GridReason::TooLarge, 13));
    }
    Ok(Head {
        kind,
        rows,
        cols,
        depth,
    })
}

/// A fault whose place counts from `at`.
pub(crate) fn stop_at(at: u64, fault: GridFault) -> GridStop
    requires { at + fault.place < 2 ^ 64 }
    ensures { result ≡ GridStop.Fault (record { reason = fault.reason; place = at + fault.place }) }
{
    GridStop::Fault(GridFault {
        reason: fault.reason,
        place: at + fault.place,
    })
}

/// Takes the head of a grid of one raster.
fn take_head<S: Source>(src: &mut S, at: u64) -> Result<Head, GridStop>
    requires { at < 2 ^ 60 }
    ensures ok { IfOk result (λ h. (bytes : List ℕ) × (IsHead (codes "LGR1") bytes h
        × TookBytes (S.left src.old) (S.left src.new) bytes)) }
    ensures err { IfErr result
        (λ stop. IsToldFault (head_faults (codes "LGR1")) (S.left src.old) at stop) }
    ensures some { OnErr result (TookSome (S.left src.old) (S.left src.new)) }
    ensures counted { CountsGridStop result (S.faults src.old) (S.faults src.new) }
{
    let mut head = [0; 17];
    let n = take_all(src, &mut head)?;
    match head_of(ONE, &head[..n]) {
        Ok(head) => Ok(head),
        Err(fault) => Err(stop_at(at, fault)),
    }
}

/// Takes so many marks as the buffer is long.
fn take_piece<S: Source>(src: &mut S, at: u64, buffer: &mut [u8]) -> Result<(), GridStop>
    requires at { at < 2 ^ 62 }
    requires few { length buffer.old ≤ 65536 }
    ensures ok { OnOk result (TookBytes (S.left src.old) (S.left src.new) buffer.new
        × AreLawful (length buffer.new) buffer.new) }
    ensures err { IfErr result
        (λ stop. IsToldFault (mark_faults (length buffer.old)) (S.left src.old) at stop) }
    ensures some { OnErr result (TookSome (S.left src.old) (S.left src.new)) }
    ensures counted { CountsGridStop result (S.faults src.old) (S.faults src.new) }
{
    let n = take_all(src, buffer)?;
    let wrong = first_wrong(&buffer[..n]);
    if wrong < n {
        return Err(stop_at(at, fault(GridReason::BadMark, wrong)));
    }
    if n < buffer.len() {
        return Err(stop_at(at, fault(GridReason::Truncated, n)));
    }
    Ok(())
}

/// A byte that none of the bytes is above: the greatest of them.
fn greatest(bytes: &[u8]) -> u8
    ensures { (k : ℕ) → get_or bytes.now k 0 ≤ result }
{
    let mut most = 0;
    for byte in bytes {
        most = most.max(*byte);
    }
    most
}

/// The place of the first byte that is no mark, and the number of bytes where there is none. It is
/// looked for only where there is one.
fn first_wrong(bytes: &[u8]) -> usize
    ensures within { result ≤ length bytes.now }
    ensures before { (k : ℕ) → k < result → get_or bytes.now k 0 ≤ 1 }
    ensures wrong { result < length bytes.now → 1 < get_or bytes.now result 0 }
{
    if greatest(bytes) <= 1 {
        return bytes.len();
    }
    for (k, byte) in bytes.iter().enumerate() {
        if *byte > 1 {
            return k;
        }
    }
    bytes.len()
}

/// Takes a mark for each pixel.
fn take_marks<S: Source>(src: &mut S, at: u64, marks: &mut Mask) -> Result<(), GridStop>
    requires at { at < 2 ^ 61 }
    ensures size { length marks.new ≡ length marks.old }
    ensures ok { OnOk result ((bytes : List ℕ) × (AreMarks (length marks.old) bytes marks.new
        × TookBytes (S.left src.old) (S.left src.new) bytes)) }
    ensures err { IfErr result
        (λ stop. IsToldFault (mark_faults (length marks.old)) (S.left src.old) at stop) }
    ensures some { OnErr result (TookSome (S.left src.old) (S.left src.new)) }
    ensures counted { CountsGridStop result (S.faults src.old) (S.faults src.new) }
{
    let mut buffer = [0; PIECE];
    let mut done = 0;
    while done < marks.len() {
        let want = PIECE.min(marks.len() - done);
        let piece = &mut buffer[..want];
        take_piece(src, at + done as u64, piece)?;
        marks.set_run(done, piece);
        done += want;
    }
    Ok(())
}

/// Takes the values of the marked pixels, which are zeros so far: run by run, out of pieces of the
/// source.
fn take_values<S: Source>(
    src: &mut S,
    at: u64,
    marks: &Mask,
    depth: usize,
    values: &mut TakenCells,
) -> Result<(), GridStop>
    requires at { at < 2 ^ 62 }
    requires size { length values.old.values ≡ length marks.now * depth }
    requires few { length values.old.values ≤ 16777216 }
    ensures kind { values.new.kind ≡ values.old.kind }
    ensures changed { ChangesMarked values.old.kind depth marks.now
        values.old.values values.new.values }
    ensures ok { OnOk result (TookBytes (S.left src.old) (S.left src.new)
        (values_bytes values.old.kind (values_of (pixels_of depth marks.now values.new.values)))) }
    ensures err { IfErr result (λ stop. IsToldFault (value_faults
        (length
        (values_of (pixels_of depth marks.now values.old.values)) * bytes_of values.old.kind))
        (S.left src.old) at stop) }
    ensures some { OnErr result (TookSome (S.left src.old) (S.left src.new)) }
    ensures counted { CountsGridStop result (S.faults src.old) (S.faults src.new) }
{
    let size = values.kind().bytes();
    let mut ahead = Ahead::of(marks.valid_count() * depth * size);
    let mut done = 0;
    let mut from = 0;
    while done < marks.len() {
        let run = marks.next_run(done, marks.len());
        let count = (run.end - run.start) * depth;
        let n = values.take_run(&mut ahead, src, run.start * depth, count)?;
        if n < count * size {
            return Err(stop_at(at, fault(GridReason::Truncated, from + n)));
        }
        from += n;
        done = run.end;
    }
    Ok(())
}

/// Marks and values for the raster of a head: no mark is set, and all values are 0. A head has a
/// shape of its own, so only memory may be wanting.
fn blank_parts(alloc: Global, head: Head) -> Result<(Mask, TakenCells), GridStop>
    requires { IsShape head.rows head.cols head.depth }
    ensures ok { IfOk result (λ parts. (parts.0 ≡ replicate (head.rows * head.cols) false)
        × (parts.1 ≡ record {
          kind = head.kind;
          values = replicate (head.rows * head.cols * head.depth) (pos 0);
        })) }
    ensures err { IfErr result (λ stop. stop ≡ GridStop.OutOfMemory) }
{
    let places = head.rows as usize * head.cols as usize;
    let marks = Mask::new(alloc, places)?;
    let values = TakenCells::new(alloc, head.kind, places * head.depth as usize)?;
    Ok((marks, values))
}

/// Reads the marks and the values of a raster, which stand behind its head.
pub(crate) fn read_band<S: Source>(
    alloc: Global,
    src: &mut S,
    at: u64,
    head: Head,
) -> Result<Raster, GridStop>
    requires at { at < 2 ^ 61 }
    requires shape { IsShape head.rows head.cols head.depth }
    ensures ok { IfOk result (λ r. (bytes : List ℕ) × (IsBandGrid head bytes r
        × TookBytes (S.left src.old) (S.left src.new) bytes)) }
    ensures err { IfErr result (λ stop. IsToldFault (behind_head head) (S.left src.old) at stop) }
    ensures some { OnErr result (TookSome (S.left src.old) (S.left src.new)) }
    ensures counted { CountsGridStop result (S.faults src.old) (S.faults src.new) }
{
    let (mut marks, mut values) = blank_parts(alloc, head)?;
    take_marks(src, at, &mut marks)?;
    let behind = at + head.rows as u64 * head.cols as u64;
    take_values(src, behind, &marks, head.depth as usize, &mut values)?;
    Ok(Raster::of_parts(head.rows, head.cols, head.depth, marks, values.into_cells()))
}

/// Reads a grid from the source, and takes the grid's bytes alone.
///
/// A fault is the first one of the bytes that are left, its place counted from `at`, the place of
/// the first of them. After any refusal some bytes are taken.
pub fn grid_read<S: Source>(alloc: Global, src: &mut S, at: u64) -> Result<Raster, GridStop>
    requires { at < 2 ^ 60 }
    ensures ok { IfOk result (λ r. TookGrid (S.left src.old) (S.left src.new) r) }
    ensures fault { IfErr result (λ stop. IsToldFault grid_faults (S.left src.old) at stop) }
    ensures some { OnErr result (TookSome (S.left src.old) (S.left src.new)) }
    ensures counted { CountsGridStop result (S.faults src.old) (S.faults src.new) }
{
    let head = take_head(src, at)?;
    read_band(alloc, src, at + 17, head)
}
