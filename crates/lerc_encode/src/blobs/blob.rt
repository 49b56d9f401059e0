//! The chosen blob of a raster.

ghost use Rattle.std.specs.Prelude.{◌≡◌, ◌^◌, ◌<◌, ◌≤◌, ◌↔◌, ◌++◌, ℕ, IfOk, IsErrOf, OnErr, OnOk};
ghost use Rattle.std.specs.Prelude.{drop, length};
ghost use Rattle.raster_values.specs.Flat.{marks_of};
ghost use Rattle.lerc_header.specs.declared.header.Version.TheVariants.{V3};
ghost use Rattle.lerc_header.specs.Head.{head_length};
ghost use Rattle.lerc_header.specs.Written.{IsHeader, head_bytes};
ghost use Rattle.lerc_encode.specs.Choice.{chosen_blob, header_with};
ghost use Rattle.lerc_encode.specs.Encoded.{Declares, IsEncodedOnce};
ghost use Rattle.lerc_encode.specs.Masks.{runs_unless};
ghost use Rattle.lerc_encode.specs.inside.Asked.{IsAsked};
ghost use Rattle.lerc_encode.specs.inside.Choosing.{AreRanges, IsBase};
ghost use Rattle.lerc_encode.specs.inside.Layout.{IsPlan, IsPlanOf, IsSealed, planned_behind};
ghost use Rattle.lerc_encode.specs.inside.Layout.{planned_blob, planned_runs};

use crate::blobs::masks::{runs_size, write_mask};
use crate::image::choosing::{Tail, tail_of};
use crate::image::images::{image_len, side_of, write_image};
use crate::image::ranging::{Ranges, ranges_of};
use lerc_header::{Header, Step, Version, needs_v4, sum_behind, write_header};
use outside_io::Bytes;
use raster_access::View;
use std::alloc::{AllocError, Global};
use thiserror::Error;

/// Why there is no blob of a raster.
#[derive(Debug, Drop, Error)]
pub enum EncodeFault {
    /// The raster has more than one depth, which version 3 has no place for.
    #[error("depth needs version 4")]
    DepthNeedsV4,
    /// There is no memory for the blob, or for what is known of the raster meanwhile.
    #[error("out of memory")]
    OutOfMemory,
}

impl From<AllocError> for EncodeFault {
    ghost use Rattle.lerc_encode.specs.declared.blobs.blob.EncodeFault.TheVariants.{OutOfMemory};

    ghost from_gives = { λ _ e. e ≡ OutOfMemory };

    fn from(_: AllocError) -> EncodeFault {
        EncodeFault::OutOfMemory
    }
}

/// What is known of a blob before it is written.
#[derive(Drop)]
pub(crate) struct Plan {
    /// The header so far.
    base: Header,
    /// What is known of the ranges of the depths.
    ranges: Ranges,
    /// Whether the mask is taken from the raster before, and how many bytes its runs take.
    taken: bool,
    runs: usize,
    /// How the image ends.
    tail: Tail,
}

/// The header as far as it is known before the blob is laid out.
fn base_header<V: View>(raster: &V, version: Version, step: u64, found: &Ranges) -> Header
    requires asked { IsAsked (V.pixels raster.now) version step }
    requires ranges { AreRanges (V.pixels raster.now) found.now }
    ensures base { IsBase result (V.pixels raster.now) }
    ensures version { result.version ≡ version }
    ensures step { result.step ≡ step }
{
    Header {
        version,
        checksum: 0,
        rows: raster.rows(),
        cols: raster.cols(),
        depth: raster.depth(),
        valid: raster.valid_count(),
        side: 8,
        size: 0,
        kind: raster.kind(),
        step,
        least: found.whole.least,
        greatest: found.whole.greatest,
    }
}

/// What is known of the blob of a raster, whose mask is taken from the raster before or is not.
pub(crate) fn plan_of<V: View>(
    alloc: Global,
    raster: &V,
    taken: bool,
    version: Version,
    step: u64,
) -> Result<Plan, AllocError>
    requires { IsAsked (V.pixels raster.now) version step }
    ensures plan { IfOk result (λ p. IsPlan (V.pixels raster.now) version step p) }
    ensures runs { IfOk result (λ p.
        planned_runs p (V.pixels raster.now) ≡ runs_unless taken (marks_of (V.pixels raster.now))) }
{
    let ranges = ranges_of(raster);
    let base = base_header(raster, version, step, &ranges);
    let runs = runs_size(raster, taken);
    let tail = tail_of(alloc, &base, &ranges, raster)?;
    Ok(Plan {
        base,
        ranges,
        taken,
        runs,
        tail,
    })
}

/// How many bytes stand behind the head.
fn behind_len<V: View>(plan: &Plan, raster: &V) -> usize
    requires { IsPlanOf (V.pixels raster.now) plan.now }
    ensures value { result ≡ length (planned_behind plan.now (V.pixels raster.now)) }
    ensures few { result ≤ 73924615 }
{
    4 + plan.runs + image_len(&plan.tail, &plan.base, raster)
}

/// How many bytes the blob has.
pub(crate) fn blob_len<V: View>(plan: &Plan, raster: &V) -> usize
    requires { IsPlanOf (V.pixels raster.now) plan.now }
    ensures value { result ≡ length (planned_blob plan.now (V.pixels raster.now)) }
    ensures few { result ≤ 73924681 }
{
    plan.base.version.head_length() + behind_len(plan, raster)
}

/// Writes what stands behind the head over all of `out`.
fn write_behind<V: View>(plan: &Plan, raster: &V, out: &mut [u8])
    requires plan { IsPlanOf (V.pixels raster.now) plan.now }
    requires room { length out.old ≡ length (planned_behind plan.now (V.pixels raster.now)) }
    ensures { out.new ≡ planned_behind plan.now (V.pixels raster.now) }
{
    let front = (4 + plan.runs).min(out.len());
    write_mask(raster, plan.taken, plan.runs, &mut out[..front]);
    write_image(
        &plan.tail,
        &plan.base,
        &plan.ranges,
        raster,
        &mut out[front..],
    );
}

/// The header of the blob, with the checksum 0.
fn header_of<V: View>(plan: &Plan, raster: &V, size: usize) -> Header
    requires plan { IsPlanOf (V.pixels raster.now) plan.now }
    requires size { size ≡ length (planned_blob plan.now (V.pixels raster.now)) }
    requires few { size < 2 ^ 32 }
    ensures { result ≡ header_with (planned_runs plan.now (V.pixels raster.now))
        (V.pixels raster.now) plan.now.base.version plan.now.base.step 0 }
{
    Header {
        side: side_of(&plan.tail, &plan.base, raster),
        size: size as u32,
        ..plan.base
    }
}

/// Lays a header over the front of a blob.
fn put_header(header: &Header, blob: &mut [u8])
    requires header { IsHeader header.now }
    requires room { head_length header.now.version ≤ length blob.old }
    ensures { blob.new ≡ head_bytes header.now ++ drop (head_length header.now.version) blob.old }
{
    let mut head = [0; 66];
    let size = write_header(header, &mut head);
    blob[..size].copy_from_slice(&head[..size]);
}

/// The header with a checksum.
fn with_sum(header: &Header, sum: u32) -> Header
    ensures { result ≡ record header.now { checksum = sum } }
{
    Header {
        checksum: sum,
        ..*header
    }
}

/// Lays the header with its checksum over the front of a blob.
pub(crate) fn seal(header: &Header, blob: &mut [u8])
    requires header { IsHeader header.now }
    requires room { head_length header.now.version ≤ length blob.old }
    ensures { IsSealed header.now (drop (head_length header.now.version) blob.old) blob.new }
{
    put_header(header, blob);
    let sum = sum_behind(blob);
    put_header(&with_sum(header, sum), blob);
}

/// Writes the blob over all of `blob`, whose length is its size.
fn fill<V: View>(plan: &Plan, raster: &V, blob: &mut [u8])
    requires asked { IsAsked (V.pixels raster.now) plan.now.base.version plan.now.base.step }
    requires plan { IsPlanOf (V.pixels raster.now) plan.now }
    requires room { length blob.old ≡ length (planned_blob plan.now (V.pixels raster.now)) }
    ensures { blob.new ≡ planned_blob plan.now (V.pixels raster.now) }
{
    let size = blob.len();
    let head = plan.base.version.head_length().min(size);
    write_behind(plan, raster, &mut blob[head..]);
    seal(&header_of(plan, raster, size), blob);
}

/// Lays the blob over the front of `out`, and answers how many bytes it has.
pub(crate) fn lay<V: View>(plan: &Plan, raster: &V, out: &mut [u8]) -> usize
    requires asked { IsAsked (V.pixels raster.now) plan.now.base.version plan.now.base.step }
    requires plan { IsPlanOf (V.pixels raster.now) plan.now }
    requires room { length (planned_blob plan.now (V.pixels raster.now)) ≤ length out.old }
    ensures size { result ≡ length (planned_blob plan.now (V.pixels raster.now)) }
    ensures laid { out.new ≡ planned_blob plan.now (V.pixels raster.now) ++ drop result out.old }
{
    let size = blob_len(plan, raster);
    fill(plan, raster, &mut out[..size]);
    size
}

/// The bytes of the chosen blob.
pub(crate) fn blob_of<V: View>(
    alloc: Global,
    raster: &V,
    version: Version,
    step: u64,
) -> Result<Vec<u8>, AllocError>
    requires { IsAsked (V.pixels raster.now) version step }
    ensures { IfOk result (λ blob. blob.items ≡ chosen_blob (V.pixels raster.now) version step) }
{
    let plan = plan_of(alloc, raster, false, version, step)?;
    let size = blob_len(&plan, raster);
    let mut blob = vec![in alloc; 0u8; size]?;
    fill(&plan, raster, &mut blob);
    Ok(blob)
}

/// The blob of a raster, however it is kept, in this version and with this step between values that
/// it can tell.
///
/// Of the forms that an image may have it is the one with the fewest bytes, of several the first; a
/// block likewise. It is a blob of exactly one raster, whose values are within half a step of the
/// given ones, and are these at step 1. It has at most 2^27 bytes.
pub fn encode_view<V: View>(
    alloc: Global,
    raster: &V,
    version: Version,
    step: Step,
) -> Result<Bytes, EncodeFault>
    ensures depth { IsErrOf result EncodeFault.DepthNeedsV4
        ↔ ((version ≡ V3) × (1 < (V.pixels raster.now).depth)) }
    ensures chosen { IfOk result (λ blob. blob ≡ chosen_blob (V.pixels raster.now) version step) }
    ensures few { IfOk result (λ blob. length blob ≤ 134217728) }
    ensures decodes { IfOk result (λ blob. IsEncodedOnce blob (V.pixels raster.now) step) }
    ensures declares { IfOk result (λ blob. Declares blob version step) }
{
    if needs_v4(version, raster.depth()) {
        return Err(EncodeFault::DepthNeedsV4);
    }
    let blob = blob_of(alloc, raster, version, step.get())?;
    Ok(Bytes::from_vec(blob))
}

/// Why the blob of a raster was not laid over a buffer.
#[derive(Debug, Drop)]
pub enum LayFault {
    /// The raster has more than one depth, which version 3 has no place for.
    DepthNeedsV4,
    /// The buffer is shorter than the blob, which has so many bytes.
    NoRoom(usize),
    /// There is no memory for what is known of the raster meanwhile.
    OutOfMemory,
}

impl From<AllocError> for LayFault {
    ghost use Rattle.lerc_encode.specs.declared.blobs.blob.LayFault.TheVariants.{OutOfMemory};

    ghost from_gives = { λ _ e. e ≡ OutOfMemory };

    fn from(_: AllocError) -> LayFault {
        LayFault::OutOfMemory
    }
}

/// Lays the blob of a raster, which is that of `encode_view`, over the front of `out`, and answers
/// how many bytes it has. What stands behind it stays, and all of `out` where there is a fault.
pub fn encode_view_over<V: View>(
    alloc: Global,
    raster: &V,
    version: Version,
    step: Step,
    out: &mut [u8],
) -> Result<usize, LayFault>
    ensures depth { IsErrOf result LayFault.DepthNeedsV4
        ↔ ((version ≡ V3) × (1 < (V.pixels raster.now).depth)) }
    ensures room { (n : ℕ) → IsErrOf result (LayFault.NoRoom n)
        → (n ≡ length (chosen_blob (V.pixels raster.now) version step)) × ((length out.old < n)
        × IsEncodedOnce (chosen_blob (V.pixels raster.now) version step) (V.pixels raster.now)
        step) }
    ensures few { IfOk result (λ n. n ≤ 134217728) }
    ensures kept { OnErr result (out.new ≡ out.old) }
    ensures size { IfOk result (λ n. n ≡ length (chosen_blob (V.pixels raster.now) version step)) }
    ensures laid { IfOk result (λ n. out.new ≡ chosen_blob (V.pixels raster.now) version step
        ++ drop n out.old) }
    ensures decodes { OnOk result (IsEncodedOnce (chosen_blob (V.pixels raster.now) version step)
        (V.pixels raster.now) step) }
    ensures declares { OnOk result (Declares (chosen_blob (V.pixels raster.now) version step)
        version step) }
{
    if needs_v4(version, raster.depth()) {
        return Err(LayFault::DepthNeedsV4);
    }
    let plan = plan_of(alloc, raster, false, version, step.get())?;
    let size = blob_len(&plan, raster);
    if size > out.len() {
        return Err(LayFault::NoRoom(size));
    }
    fill(&plan, raster, &mut out[..size]);
    Ok(size)
}
