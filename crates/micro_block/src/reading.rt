//! Reading blocks.

ghost use Rattle.std.specs.Prelude.{◌≡◌, ◌+◌, ◌*◌, ◌/◌, ◌%◌, ◌^◌, ◌<◌, ◌≤◌, ◌↔◌, ◌++◌, ℕ, ℤ, pos};
ghost use Rattle.std.specs.Prelude.{if◌then◌else◌, List, All, IfErr, IfOk, IsOkAnd, MatchResult};
ghost use Rattle.std.specs.Prelude.{length};
ghost use Rattle.std.specs.Prelude.{map, replicate, take};
ghost use Rattle.lane_kernels.specs.Kernels.{IsStepSize, capped_sums};
ghost use Rattle.lut_stuff.specs.Faults.{list_faults};
ghost use Rattle.raster_cells.specs.PixelType.{InRange, bytes_of, type_greatest, type_least};
ghost use Rattle.raster_cells.specs.Values.{AreValues};
ghost use Rattle.micro_block.specs.declared.context.BlockFault.{BlockFault};
ghost use Rattle.micro_block.specs.Block.{IsBlock};
ghost use Rattle.micro_block.specs.Block as block;
ghost use Rattle.micro_block.specs.Faults.{block_faults, form_faults};
ghost use Rattle.micro_block.specs.Faults.{offset_faults, raw_faults, told_of_list};
ghost use Rattle.micro_block.specs.Frame.{frame_of};
ghost use Rattle.micro_block.specs.ReadSteps.{stepped_values};
ghost use Rattle.micro_block.specs.inside.Tagged.{FitSteps, HasConstant, HasSteps, HasStuffed};
ghost use Rattle.micro_block.specs.inside.Tagged.{HasTagged, LiesIn};

use crate::context::{BlockCtx, BlockFault, BlockReason, SteppedBlock};
use lane_kernels::plus_capped_unsigned;
use lut_stuff::read_list;
use raster_cells::PixelType;

/// The answer with this fault.
fn refuse(reason: BlockReason, at: usize) -> Result<SteppedBlock, BlockFault>
    ensures { result ≡ Err (record { reason = reason; at = at }) }
{
    Err(BlockFault { reason, at })
}

/// The answer of a part that stands behind the first `n` bytes.
fn behind(n: usize, part: Result<SteppedBlock, BlockFault>) -> Result<SteppedBlock, BlockFault>
    requires { MatchResult part (λ s. n + s.used < 2 ^ 64) (λ f. n + f.at < 2 ^ 64) }
    ensures { MatchResult part
        (λ s. result ≡ Ok (record {
          used = n + s.used;
          offset = s.offset;
          step = s.step;
          top = s.top;
        }))
        (λ f. result ≡ Err (record { reason = f.reason; at = n + f.at })) }
{
    match part {
        Ok(steps) => Ok(SteppedBlock {
            used: n + steps.used,
            offset: steps.offset,
            step: steps.step,
            top: steps.top,
        }),
        Err(fault) => refuse(fault.reason, n + fault.at),
    }
}

/// The type in which an offset stands, by its code.
fn offset_type(kind: PixelType, code: u8) -> Option<PixelType>
    requires { code < 4 }
    ensures { result ≡ block.offset_type kind code }
{
    match (kind, code) {
        (PixelType::I8 | PixelType::U8, _) => Some(kind),
        (_, 0) => Some(kind),
        (PixelType::I16 | PixelType::U16, 1) => Some(PixelType::U8),
        (PixelType::I16, 2) => Some(PixelType::I8),
        (PixelType::I32 | PixelType::U32, 1) => Some(PixelType::U16),
        (PixelType::I32, 2) => Some(PixelType::I16),
        (PixelType::I32, _) => Some(PixelType::U8),
        (PixelType::U32, 2) => Some(PixelType::U8),
        _ => None,
    }
}

/// Reads the values that the bytes stand for, one behind the other: as many as `out` has.
pub fn read_values(kind: PixelType, bytes: &[u8], out: &mut [i64])
    requires few { length out.old ≤ 65536 }
    requires size { length bytes.now ≡ length out.old * bytes_of kind }
    ensures values { AreValues kind bytes.now out.new }
    ensures in_range { All (InRange kind) out.new }
{
    let size = kind.bytes();
    for i in 0..out.len() {
        out[i] = kind.read_value(&bytes[i * size..]);
    }
}

/// Reads the values that the bytes stand for, each as its distance above the least of the type.
fn read_distances(kind: PixelType, bytes: &[u8], numbers: &mut [u32])
    requires few { length numbers.old ≤ 1024 }
    requires size { length bytes.now ≡ length numbers.old * bytes_of kind }
    ensures { AreValues kind bytes.now
        (capped_sums (map pos numbers.new) (type_least kind) (pos 1) (type_greatest kind)) }
{
    let size = kind.bytes();
    let least = kind.least();
    for i in 0..numbers.len() {
        numbers[i] = (kind.read_value(&bytes[i * size..]) - least) as u32;
    }
}

/// Reads values that stand as they are: each is so many steps of 1 from the least of the type.
fn read_raw(bytes: &[u8], ctx: &BlockCtx, numbers: &mut [u32]) -> Result<SteppedBlock, BlockFault>
    requires { length numbers.old ≤ 1024 }
    ensures { MatchResult result
        (λ s. ((s.used ≤ length bytes.now)
        × AreValues ctx.now.kind (take s.used bytes.now) (stepped_values s numbers.new))
        × FitSteps ctx.now.kind s)
        (λ f. (f.at ≡ 0)
        × raw_faults (frame_of ctx.now (length numbers.old)) bytes.now f.at f.reason) }
{
    let used = numbers.len() * ctx.kind.bytes();
    if bytes.len() < used {
        return refuse(BlockReason::Cut, 0);
    }
    read_distances(ctx.kind, &bytes[..used], numbers);
    Ok(SteppedBlock {
        used,
        offset: ctx.kind.least(),
        step: 1,
        top: ctx.kind.greatest(),
    })
}

/// The same value for each: no step from it.
fn all_alike(kind: PixelType, used: usize, value: i64, numbers: &mut [u32]) -> SteppedBlock
    requires { InRange kind value }
    ensures used { result.used ≡ used }
    ensures same { stepped_values result numbers.new ≡ replicate (length numbers.old) value }
    ensures fit { FitSteps kind result }
{
    numbers.fill(0);
    SteppedBlock {
        used,
        offset: value,
        step: 1,
        top: kind.greatest(),
    }
}

/// Reads an offset that each value is.
fn read_constant(
    bytes: &[u8],
    ctx: &BlockCtx,
    kind: PixelType,
    numbers: &mut [u32],
) -> Result<SteppedBlock, BlockFault>
    requires within { LiesIn ctx.now.kind kind }
    ensures { MatchResult result
        (λ s. HasConstant kind bytes.now s.used (length numbers.old) (stepped_values s numbers.new)
        × FitSteps ctx.now.kind s)
        (λ f. ((f.at ≡ 0) × (f.reason ≡ BlockReason.Cut)) × (length bytes.now < bytes_of kind)) }
{
    let used = kind.bytes();
    if bytes.len() < used {
        return refuse(BlockReason::Cut, 0);
    }
    Ok(all_alike(ctx.kind, used, kind.read_value(bytes), numbers))
}

/// The same step with a sign.
fn as_signed(step: u64) -> i64
    requires { step ≤ 8589934590 }
    ensures { result ≡ pos step }
{
    step as i64
}

/// Reads a list of numbers of steps from the offset.
fn read_numbers(
    bytes: &[u8],
    ctx: &BlockCtx,
    offset: i64,
    numbers: &mut [u32],
) -> Result<SteppedBlock, BlockFault>
    requires few { length numbers.old ≤ 1024 }
    requires offset { InRange ctx.now.kind offset }
    ensures { MatchResult result
        (λ s. HasSteps (frame_of ctx.now (length numbers.old)) offset bytes.now s.used
        (stepped_values s numbers.new)
        × FitSteps ctx.now.kind s)
        (λ f. (f.at ≤ length bytes.now)
        × told_of_list (list_faults (length numbers.old) bytes.now) f.at f.reason) }
{
    match read_list(bytes, numbers) {
        Ok(used) => Ok(SteppedBlock {
            used,
            offset,
            step: as_signed(ctx.step),
            top: ctx.top,
        }),
        Err(fault) => refuse(BlockReason::List(fault.reason), fault.at),
    }
}

/// Reads an offset and a list of numbers of steps from it.
fn read_stuffed(
    bytes: &[u8],
    ctx: &BlockCtx,
    kind: PixelType,
    numbers: &mut [u32],
) -> Result<SteppedBlock, BlockFault>
    requires few { length numbers.old ≤ 1024 }
    requires within { LiesIn ctx.now.kind kind }
    ensures { MatchResult result
        (λ s. HasStuffed (frame_of ctx.now (length numbers.old)) kind bytes.now s.used
        (stepped_values s numbers.new)
        × FitSteps ctx.now.kind s)
        (λ f. (f.at ≤ length bytes.now)
        × offset_faults (frame_of ctx.now (length numbers.old)) 1 kind bytes.now f.at f.reason) }
{
    let size = kind.bytes();
    if bytes.len() < size {
        return refuse(BlockReason::Cut, 0);
    }
    let offset = kind.read_value(bytes);
    behind(size, read_numbers(&bytes[size..], ctx, offset, numbers))
}

/// Reads what follows a tag of the stuffed or the constant form; places and lengths count from the
/// tag.
fn read_offset(
    bytes: &[u8],
    tag: u8,
    ctx: &BlockCtx,
    kind: PixelType,
    numbers: &mut [u32],
) -> Result<SteppedBlock, BlockFault>
    requires few { length numbers.old ≤ 1024 }
    requires not_raw { ¬ (tag % 4 ≡ 0) }
    requires not_zero { ¬ (tag % 4 ≡ 2) }
    requires kind { block.offset_type ctx.now.kind (tag / 64) ≡ Some kind }
    ensures { MatchResult result
        (λ s. HasTagged (frame_of ctx.now (length numbers.old)) tag bytes.now s.used
        (stepped_values s numbers.new)
        × FitSteps ctx.now.kind s)
        (λ f. (f.at ≤ 1 + length bytes.now)
        × form_faults (frame_of ctx.now (length numbers.old)) tag bytes.now f.at f.reason) }
{
    if tag % 4 == 1 {
        behind(1, read_stuffed(bytes, ctx, kind, numbers))
    } else {
        behind(1, read_constant(bytes, ctx, kind, numbers))
    }
}

/// Reads what follows a tag; places and lengths count from the tag.
fn read_tagged(
    bytes: &[u8],
    tag: u8,
    ctx: &BlockCtx,
    numbers: &mut [u32],
) -> Result<SteppedBlock, BlockFault>
    requires few { length numbers.old ≤ 1024 }
    ensures { MatchResult result
        (λ s. HasTagged (frame_of ctx.now (length numbers.old)) tag bytes.now s.used
        (stepped_values s numbers.new)
        × FitSteps ctx.now.kind s)
        (λ f. (f.at ≤ 1 + length bytes.now)
        × form_faults (frame_of ctx.now (length numbers.old)) tag bytes.now f.at f.reason) }
{
    if tag % 4 == 0 {
        return behind(1, read_raw(bytes, ctx, numbers));
    }
    if tag % 4 == 2 {
        return Ok(all_alike(ctx.kind, 1, 0, numbers));
    }
    match offset_type(ctx.kind, tag / 64) {
        None => refuse(BlockReason::BadOffset, 0),
        Some(kind) => read_offset(bytes, tag, ctx, kind, numbers),
    }
}

/// Reads a block, with one clause for both answers.
fn read_form(bytes: &[u8], ctx: &BlockCtx, numbers: &mut [u32]) -> Result<SteppedBlock, BlockFault>
    requires few { length numbers.old ≤ 1024 }
    ensures { MatchResult result
        (λ s. ((s.used ≤ length bytes.now)
        × IsBlock (frame_of ctx.now (length numbers.old)) (take s.used bytes.now)
        (stepped_values s numbers.new))
        × FitSteps ctx.now.kind s)
        (λ f. (f.at ≤ length bytes.now)
        × block_faults (frame_of ctx.now (length numbers.old)) bytes.now f.at f.reason) }
{
    if bytes.is_empty() {
        return refuse(BlockReason::Cut, 0);
    }
    let tag = bytes[0];
    if u32::from(tag / 4 % 16) != ctx.col / 8 % 16 {
        return refuse(BlockReason::BadTag, 0);
    }
    read_tagged(&bytes[1..], tag, ctx, numbers)
}

/// Reads a block of as many values as there is room for numbers, from the front of the bytes: its
/// values are so many steps from the offset that it answers, or the top where that is less
/// (`stepped_values`).
///
/// The first byte, the tag, has the form in bits 0 and 1, the block's column in bits 2 to 5 and the
/// code of the offset's type in bits 6 and 7, which are not looked at in the raw and in the zero
/// form. A block with a list has its own offset, and the step and the top of `ctx`. In the other
/// forms a step is 1 and the top the greatest value of the type: raw values are counted from the
/// type's least, and where all values are alike they are no step from the offset. The faults come
/// in this order, each with its place: `Cut` at 0 for no byte; `BadTag` at 0; `Cut` at the first
/// byte of raw values that are cut; `BadOffset` at 0 for a code without a meaning; `Cut` at the
/// first byte of an offset that is cut; the list's own, with its place in the block. After a fault
/// `numbers` has any content.
pub fn read_steps(
    bytes: &[u8],
    ctx: &BlockCtx,
    numbers: &mut [u32],
) -> Result<SteppedBlock, BlockFault>
    requires few { length numbers.old ≤ 1024 }
    ensures ok { IfOk result (λ s. (s.used ≤ length bytes.now)
        × IsBlock (frame_of ctx.now (length numbers.old)) (take s.used bytes.now)
        (stepped_values s numbers.new)) }
    ensures complete { (front rest : List ℕ) (values : List ℤ) → bytes.now ≡ front ++ rest →
        IsBlock (frame_of ctx.now (length numbers.old)) front values →
        IsOkAnd result
        (λ s. (s.used ≡ length front) × (stepped_values s numbers.new ≡ values)) }
    ensures fault { (f : BlockFault) → (result ≡ Err f)
        ↔ block_faults (frame_of ctx.now (length numbers.old)) bytes.now f.at f.reason }
    ensures in_range { IfOk result
        (λ s. All (InRange ctx.now.kind) (stepped_values s numbers.new)) }
    ensures offset { IfOk result (λ s. InRange ctx.now.kind s.offset) }
    ensures top { IfOk result (λ s. InRange ctx.now.kind s.top) }
    ensures step { IfOk result (λ s. IsStepSize s.step) }
    ensures within { IfErr result (λ f. f.at ≤ length bytes.now) }
{
    read_form(bytes, ctx, numbers)
}

/// Reads a block of as many values as `out` has, with room for as many numbers of steps.
fn read_through(
    bytes: &[u8],
    ctx: &BlockCtx,
    numbers: &mut [u32],
    out: &mut [i64],
) -> Result<usize, BlockFault>
    requires few { length out.old ≤ 1024 }
    requires room { length numbers.old ≡ length out.old }
    ensures { MatchResult result
        (λ used. (used ≤ length bytes.now)
        × IsBlock (frame_of ctx.now (length out.old)) (take used bytes.now) out.new)
        (λ f. (f.at ≤ length bytes.now)
        × block_faults (frame_of ctx.now (length out.old)) bytes.now f.at f.reason) }
{
    match read_steps(bytes, ctx, numbers) {
        Ok(steps) => {
            plus_capped_unsigned(numbers, steps.offset, steps.step, steps.top, out);
            Ok(steps.used)
        }
        Err(fault) => Err(fault),
    }
}

/// Reads a block's values, with one clause for both answers.
fn read_sums(bytes: &[u8], ctx: &BlockCtx, out: &mut [i64]) -> Result<usize, BlockFault>
    requires few { length out.old ≤ 1024 }
    ensures { MatchResult result
        (λ used. (used ≤ length bytes.now)
        × IsBlock (frame_of ctx.now (length out.old)) (take used bytes.now) out.new)
        (λ f. (f.at ≤ length bytes.now)
        × block_faults (frame_of ctx.now (length out.old)) bytes.now f.at f.reason) }
{
    let count = out.len();
    if count <= 64 {
        let mut numbers = [0; 64];
        read_through(bytes, ctx, &mut numbers[..count], out)
    } else if count <= 256 {
        let mut numbers = [0; 256];
        read_through(bytes, ctx, &mut numbers[..count], out)
    } else {
        let mut numbers = [0; 1024];
        read_through(bytes, ctx, &mut numbers[..count], out)
    }
}

/// Reads a block of as many values as `out` has from the front of the bytes; how many bytes it
/// takes. The values are those of `read_steps`, and so are the faults. After a fault `out` has any
/// content.
pub fn read_block(bytes: &[u8], ctx: &BlockCtx, out: &mut [i64]) -> Result<usize, BlockFault>
    requires few { length out.old ≤ 1024 }
    ensures ok { IfOk result (λ used. (used ≤ length bytes.now)
        × IsBlock (frame_of ctx.now (length out.old)) (take used bytes.now) out.new) }
    ensures complete { (front rest : List ℕ) (values : List ℤ) → bytes.now ≡ front ++ rest →
        IsBlock (frame_of ctx.now (length out.old)) front values →
        (result ≡ Ok (length front)) × (out.new ≡ values) }
    ensures fault { (f : BlockFault) → (result ≡ Err f)
        ↔ block_faults (frame_of ctx.now (length out.old)) bytes.now f.at f.reason }
    ensures in_range { IfOk result (λ _. All (InRange ctx.now.kind) out.new) }
    ensures within { IfErr result (λ f. f.at ≤ length bytes.now) }
{
    read_sums(bytes, ctx, out)
}
