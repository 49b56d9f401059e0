//! The chosen blob of a raster whose pixels are all alike. Nothing is read of such a raster, since
//! there are neither runs of its mask nor an image.

ghost use Rattle.std.specs.Prelude.{◌≡◌, ℕ, ◌+◌, ◌<◌, ◌≤◌, ◌↔◌, ◌++◌, [], IfOk, IsErrOf};
ghost use Rattle.std.specs.Prelude.{OnErr, OnOk, drop, length};
ghost use Rattle.raster_values.specs.Raster.{valid_count, values_of};
ghost use Rattle.lerc_header.specs.declared.header.Version.TheVariants.{V3};
ghost use Rattle.lerc_header.specs.Head.{head_length};
ghost use Rattle.lerc_header.specs.Written.{IsHeader};
ghost use Rattle.micro_block.specs.ChosenBlock.{least_value};
ghost use Rattle.lerc_encode.specs.AllAlike.{alike_pixels};
ghost use Rattle.lerc_encode.specs.Choice.{chosen_blob, header_with};
ghost use Rattle.lerc_encode.specs.Encoded.{Declares, IsEncodedOnce};
ghost use Rattle.lerc_encode.specs.Masks.{mask_part};
ghost use Rattle.lerc_encode.specs.Ranges.{greatest_value};
ghost use Rattle.lerc_encode.specs.inside.Layout.{IsSealed};

use crate::blobs::alike_raster::AlikeRaster;
use crate::blobs::blob::{LayFault, seal};
use crate::blobs::masks::write_no_mask;
use lerc_header::{Header, Step, Version, needs_v4};

/// How many pixels are valid.
fn valid_of(raster: AlikeRaster) -> u32
    ensures { result ≡ valid_count (alike_pixels raster) }
{
    match raster.value {
        Some(_) => raster.rows * raster.cols,
        None => 0,
    }
}

/// The one value that there is, and 0 where there is none.
fn level_of(raster: AlikeRaster) -> i64
    ensures least { result ≡ least_value (values_of (alike_pixels raster).pixels) }
    ensures greatest { result ≡ greatest_value (values_of (alike_pixels raster).pixels) }
{
    raster.value.unwrap_or(0)
}

/// The header of the blob, with the checksum 0.
fn alike_header(raster: AlikeRaster, version: Version, step: u64) -> Header
    ensures { result ≡ header_with [] (alike_pixels raster) version step 0 }
{
    let level = level_of(raster);
    Header {
        version,
        checksum: 0,
        rows: raster.rows,
        cols: raster.cols,
        depth: raster.depth,
        valid: valid_of(raster),
        side: 8,
        size: alike_len(version) as u32,
        kind: raster.kind,
        step,
        least: level,
        greatest: level,
    }
}

/// How many bytes the blob has: the header, and the length of no runs.
fn alike_len(version: Version) -> usize
    ensures { result ≡ head_length version + 4 }
{
    version.head_length() + 4
}

/// Writes the blob with this header over all of `blob`.
fn lay_alike(header: &Header, blob: &mut [u8])
    requires header { IsHeader header.now }
    requires room { length blob.old ≡ head_length header.now.version + 4 }
    ensures { IsSealed header.now (mask_part []) blob.new }
{
    let head = header.version.head_length().min(blob.len());
    write_no_mask(&mut blob[head..]);
    seal(header, blob);
}

/// Lays the blob of a raster whose pixels are all alike, which is that of `encode_view`, over the
/// front of `out`, and answers how many bytes it has. What stands behind the blob stays, and all of
/// `out` where there is a fault. No memory is taken.
pub fn encode_alike_over(
    raster: AlikeRaster,
    version: Version,
    step: Step,
    out: &mut [u8],
) -> Result<usize, LayFault>
    ensures depth { IsErrOf result LayFault.DepthNeedsV4
        ↔ ((version ≡ V3) × (1 < raster.depth)) }
    ensures memory { IsErrOf result LayFault.OutOfMemory → ⊥ }
    ensures room { (n : ℕ) → IsErrOf result (LayFault.NoRoom n)
        → let r = alike_pixels raster in
        (n ≡ length (chosen_blob r version step)) × ((length out.old < n)
        × IsEncodedOnce (chosen_blob r version step) r step) }
    ensures few { IfOk result (λ n. n ≤ 134217728) }
    ensures kept { OnErr result (out.new ≡ out.old) }
    ensures size { IfOk result (λ n. n
        ≡ length (chosen_blob (alike_pixels raster) version step)) }
    ensures laid { IfOk result (λ n. out.new
        ≡ chosen_blob (alike_pixels raster) version step ++ drop n out.old) }
    ensures decodes { let r = alike_pixels raster in
        OnOk result (IsEncodedOnce (chosen_blob r version step) r step) }
    ensures declares { let r = alike_pixels raster in
        OnOk result (Declares (chosen_blob r version step) version step) }
{
    if needs_v4(version, raster.depth) {
        return Err(LayFault::DepthNeedsV4);
    }
    let asked = step.get();
    let size = alike_len(version);
    if size > out.len() {
        return Err(LayFault::NoRoom(size));
    }
    let header = alike_header(raster, version, asked);
    lay_alike(&header, &mut out[..size]);
    Ok(size)
}
