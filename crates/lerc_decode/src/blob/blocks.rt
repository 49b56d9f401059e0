//! The blocks of an image, read one behind the other.

ghost use Rattle.std.specs.Prelude.{◌≡◌, ◌≤◌, ◌*◌, ◌+◌, ◌-◌, ◌/◌, ◌<◌, ◌^◌, IfErr, IfOk, OnOk};
ghost use Rattle.std.specs.Prelude.{length};
ghost use Rattle.first_fault.specs.Faults.{moved};
ghost use Rattle.raster_values.specs.Block.{block_count};
ghost use Rattle.raster_values.specs.Flat.{marks_of};
ghost use Rattle.raster_cells.specs.Step.{IsTwiceError};
ghost use Rattle.raster_cells.specs.Shapes.{IsShape};
ghost use Rattle.lerc_grammar.specs.Blocks.{blocks_down, blocks_faults};
ghost use Rattle.lerc_grammar.specs.Reasons.{block_reason};
ghost use Rattle.lerc_decode.specs.inside.Blocks.{HasBlocks, IsSquare};
ghost use Rattle.lerc_decode.specs.inside.Blocks.{block_number};
ghost use Rattle.lerc_decode.specs.inside.ImageBlocks.{AreRead, IsBlockFault};
ghost use Rattle.lerc_decode.specs.inside.Body.{IsFaultIn, IsShapedAs, KeepsFrame};
ghost use Rattle.lerc_decode.specs.inside.Maxima.{AreMaxima, top_in};

use crate::blob::faults::{reason_of_block, refuse};
use crate::blob::image_blocks::ImageBlocks;
use crate::blob::maxima::Maxima;
use lerc_header::{BlobFault, BlobReason, Header};
use micro_block::{BlockCtx, BlockFault, read_steps};
use raster_access::Target;
use raster_cells::Sums;

/// A fault of the block that begins at this place.
fn refuse_block(fault: BlockFault, at: usize) -> Result<usize, BlobFault>
    requires { at + fault.at < 2 ^ 63 }
    ensures { result ≡ Err (record {
      reason = block_reason fault.reason;
      place = at + fault.at;
    }) }
{
    Err(BlobFault {
        reason: reason_of_block(fault.reason),
        place: (at + fault.at) as u64,
    })
}

/// Reads the block in row `a` and column `b` of blocks at depth `d`, which begins at this place,
/// and answers the place behind it.
fn read_one<T: Target>(
    blocks: &ImageBlocks,
    at: usize,
    a: u32,
    b: u32,
    d: u32,
    numbers: &mut [u32],
    raster: &mut T,
) -> Result<usize, BlobFault>
    requires square { IsSquare blocks.now.header.now a b }
    requires depth { d < blocks.now.header.now.depth }
    requires shaped { IsShapedAs blocks.now.header.now (T.pixels raster.old) }
    requires few { length numbers.old ≤ 1024 }
    requires count { length numbers.old
        ≡ block_count (T.pixels raster.old) (a * blocks.now.header.now.side)
        (b * blocks.now.header.now.side) blocks.now.header.now.side }
    requires read { AreRead blocks.now (marks_of (T.pixels raster.old))
        (block_number blocks.now.header.now a b d) at (T.pixels raster.old) }
    ensures ok { IfOk result (λ next. AreRead blocks.now (marks_of (T.pixels raster.old))
        (block_number blocks.now.header.now a b d + 1) next (T.pixels raster.new)) }
    ensures fault { IfErr result
        (IsBlockFault blocks.now (marks_of (T.pixels raster.old))) }
    ensures frame { KeepsFrame (T.pixels raster.old) (T.pixels raster.new)
        (T.kept raster.old) (T.kept raster.new) }
{
    let header = blocks.header;
    let row = a * header.side;
    let col = b * header.side;
    let ctx = BlockCtx {
        kind: header.kind,
        col,
        step: header.step,
        top: blocks.maxima.at(header, d),
    };
    match read_steps(&blocks.rest[at..], &ctx, numbers) {
        Ok(read) => {
            let sums = Sums::of(header.kind, numbers, read.offset, read.step, read.top);
            raster.scatter_given(row, col, header.side, d, &sums);
            Ok(at + read.used)
        }
        Err(fault) => refuse_block(fault, at),
    }
}

/// Reads the blocks of all depths in row `a` and column `b` of blocks.
fn read_depths<T: Target>(
    blocks: &ImageBlocks,
    from: usize,
    a: u32,
    b: u32,
    numbers: &mut [u32],
    raster: &mut T,
) -> Result<usize, BlobFault>
    requires square { IsSquare blocks.now.header.now a b }
    requires shaped { IsShapedAs blocks.now.header.now (T.pixels raster.old) }
    requires few { length numbers.old ≤ 1024 }
    requires count { length numbers.old
        ≡ block_count (T.pixels raster.old) (a * blocks.now.header.now.side)
        (b * blocks.now.header.now.side) blocks.now.header.now.side }
    requires read { AreRead blocks.now (marks_of (T.pixels raster.old))
        (block_number blocks.now.header.now a b 0) from (T.pixels raster.old) }
    ensures ok { IfOk result (λ next. AreRead blocks.now (marks_of (T.pixels raster.old))
        (block_number blocks.now.header.now a (b + 1) 0) next (T.pixels raster.new)) }
    ensures fault { IfErr result
        (IsBlockFault blocks.now (marks_of (T.pixels raster.old))) }
    ensures frame { KeepsFrame (T.pixels raster.old) (T.pixels raster.new)
        (T.kept raster.old) (T.kept raster.new) }
{
    let mut at = from;
    for d in 0..blocks.header.depth {
        at = read_one(blocks, at, a, b, d, numbers, raster)?;
    }
    Ok(at)
}

/// Reads the blocks in row `a` and column `b` of blocks, with room for the numbers of steps of a
/// block.
fn read_square<T: Target>(
    blocks: &ImageBlocks,
    from: usize,
    a: u32,
    b: u32,
    room: &mut [u32; 1024],
    raster: &mut T,
) -> Result<usize, BlobFault>
    requires square { IsSquare blocks.now.header.now a b }
    requires shaped { IsShapedAs blocks.now.header.now (T.pixels raster.old) }
    requires read { AreRead blocks.now (marks_of (T.pixels raster.old))
        (block_number blocks.now.header.now a b 0) from (T.pixels raster.old) }
    ensures ok { IfOk result (λ next. AreRead blocks.now (marks_of (T.pixels raster.old))
        (block_number blocks.now.header.now a (b + 1) 0) next (T.pixels raster.new)) }
    ensures fault { IfErr result
        (IsBlockFault blocks.now (marks_of (T.pixels raster.old))) }
    ensures frame { KeepsFrame (T.pixels raster.old) (T.pixels raster.new)
        (T.kept raster.old) (T.kept raster.new) }
{
    let side = blocks.header.side;
    let count = raster.block_valid_count(a * side, b * side, side);
    read_depths(blocks, from, a, b, &mut room[..count], raster)
}

/// How many blocks of this side hold so many pixels in a row or a column.
fn blocks_in(pixels: u32, side: u32) -> u32
    requires some { 0 < side }
    requires pixels { pixels ≤ 16777216 }
    requires side { side ≤ 32 }
    ensures { result ≡ (pixels + side - 1) / side }
{
    (pixels + side - 1) / side
}

/// Reads row `a` of blocks.
fn read_row<T: Target>(
    blocks: &ImageBlocks,
    from: usize,
    a: u32,
    room: &mut [u32; 1024],
    raster: &mut T,
) -> Result<usize, BlobFault>
    requires row { a < blocks_down blocks.now.header.now }
    requires shaped { IsShapedAs blocks.now.header.now (T.pixels raster.old) }
    requires read { AreRead blocks.now (marks_of (T.pixels raster.old))
        (block_number blocks.now.header.now a 0 0) from (T.pixels raster.old) }
    ensures ok { IfOk result (λ next. AreRead blocks.now (marks_of (T.pixels raster.old))
        (block_number blocks.now.header.now (a + 1) 0 0) next (T.pixels raster.new)) }
    ensures fault { IfErr result
        (IsBlockFault blocks.now (marks_of (T.pixels raster.old))) }
    ensures frame { KeepsFrame (T.pixels raster.old) (T.pixels raster.new)
        (T.kept raster.old) (T.kept raster.new) }
{
    let mut at = from;
    for b in 0..blocks_in(blocks.header.cols, blocks.header.side) {
        at = read_square(blocks, at, a, b, room, raster)?;
    }
    Ok(at)
}

/// Reads all blocks, and answers the place behind them.
fn read_rows<T: Target>(
    blocks: &ImageBlocks,
    room: &mut [u32; 1024],
    raster: &mut T,
) -> Result<usize, BlobFault>
    requires shaped { IsShapedAs blocks.now.header.now (T.pixels raster.old) }
    ensures ok { IfOk result (λ next. AreRead blocks.now (marks_of (T.pixels raster.old))
        (block_number blocks.now.header.now (blocks_down blocks.now.header.now) 0 0) next
        (T.pixels raster.new)) }
    ensures fault { IfErr result
        (IsBlockFault blocks.now (marks_of (T.pixels raster.old))) }
    ensures frame { KeepsFrame (T.pixels raster.old) (T.pixels raster.new)
        (T.kept raster.old) (T.kept raster.new) }
{
    let mut at = 0;
    for a in 0..blocks_in(blocks.header.rows, blocks.header.side) {
        at = read_row(blocks, at, a, room, raster)?;
    }
    Ok(at)
}

/// Gives the valid pixels the values of blocks, the first of which begins at this place of the
/// blob.
pub(crate) fn scatter_blocks<T: Target>(
    rest: &[u8],
    place: usize,
    header: &Header,
    maxima: &Maxima,
    raster: &mut T,
) -> Result<(), BlobFault>
    requires side { 0 < header.now.side }
    requires head { IsShape header.now.rows header.now.cols header.now.depth }
    requires step { IsTwiceError header.now.step }
    requires maxima { AreMaxima header.now maxima.now }
    requires shaped { IsShapedAs header.now (T.pixels raster.old) }
    requires few { place + length rest.now < 2 ^ 62 }
    ensures ok { OnOk result (HasBlocks header.now (marks_of (T.pixels raster.old)) maxima.now
        rest.now
        (T.pixels raster.new)) }
    ensures fault { IfErr result (λ fault. IsFaultIn (moved place (blocks_faults header.now
        (marks_of (T.pixels raster.old)) (top_in header.now maxima.now) rest.now)) fault) }
    ensures frame { KeepsFrame (T.pixels raster.old) (T.pixels raster.new)
        (T.kept raster.old) (T.kept raster.new) }
{
    if header.side > 32 {
        return refuse(BlobReason::BadBlockSize, place);
    }
    let blocks = ImageBlocks {
        rest,
        header,
        maxima,
    };
    let mut room = [0; 1024];
    match read_rows(&blocks, &mut room, raster) {
        Ok(at) if at < rest.len() => refuse(BlobReason::Leftover, place + at),
        Ok(_) => Ok(()),
        Err(fault) => refuse(fault.reason, place + fault.place as usize),
    }
}
