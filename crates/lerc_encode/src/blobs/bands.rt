//! The chosen blobs of bands.

ghost use Rattle.std.specs.Prelude.{◌≡◌, ◌<◌, ◌≤◌, ◌↔◌, All, IfOk, IsErrOf, None, Some, length};
ghost use Rattle.std.specs.Prelude.{slice_get, take};
ghost use Rattle.raster_values.specs.Raster.{Pixels};
ghost use Rattle.lerc_grammar.specs.Bands.{last_after};
ghost use Rattle.lerc_encode.specs.Choice.{chosen_bands};
ghost use Rattle.lerc_encode.specs.Encoded.{AreEncodedOnce, BandsNeedV4, DeclareEach};
ghost use Rattle.lerc_encode.specs.Masks.{takes_mask as takes};
ghost use Rattle.lerc_encode.specs.inside.Asked.{IsAsked};
ghost use Rattle.lerc_encode.specs.inside.Joined.{ArePlans};

use crate::blobs::blob::{EncodeFault, Plan, blob_len, blob_of, lay, plan_of};
use crate::blobs::masks::takes_mask;
use lerc_header::{Step, Version, needs_v4};
use outside_io::Bytes;
use raster_values::Bands;
use std::alloc::{AllocError, Global};

/// What is known of the blobs of bands before they are written, and how many bytes they have
/// together.
#[derive(Drop)]
struct Plans {
    plans: Vec<Plan>,
    size: usize,
}

/// Whether the mask of band number k is taken from the band before it.
fn is_taken(bands: &Bands, k: usize) -> bool
    requires { k < length bands.now }
    ensures { (r : Pixels) → slice_get bands.now k ≡ Some r
        → result ≡ takes (last_after None (take k bands.now)) r }
{
    k > 0 && takes_mask(bands.at(k - 1), bands.at(k))
}

/// What is known of the blobs of bands.
fn plans_of(alloc: Global, bands: &Bands, version: Version, step: u64) -> Result<Plans, AllocError>
    requires { All (λ r. IsAsked r version step) bands.now }
    ensures { IfOk result (λ p.
        ArePlans bands.now version step (length bands.now) p.plans.items p.size) }
{
    let mut plans = Vec::with_capacity(alloc, bands.len())?;
    let mut size = 0;
    for k in 0..bands.len() {
        let raster = bands.at(k);
        let plan = plan_of(alloc, raster, is_taken(bands, k), version, step)?;
        size += blob_len(&plan, raster);
        plans.push(plan)?;
    }
    Ok(Plans { plans, size })
}

/// The chosen blobs of bands, one behind the other. One band alone is planned and written as a
/// raster is.
fn blobs_of(
    alloc: Global,
    bands: &Bands,
    version: Version,
    step: u64,
) -> Result<Vec<u8>, AllocError>
    requires { All (λ r. IsAsked r version step) bands.now }
    ensures { IfOk result (λ blobs. blobs.items ≡ chosen_bands None bands.now version step) }
{
    if bands.len() == 1 {
        return blob_of(alloc, bands.at(0), version, step);
    }
    let Plans { plans, size } = plans_of(alloc, bands, version, step)?;
    let mut blobs = vec![in alloc; 0u8; size]?;
    let out = &mut blobs[..];
    let mut place = 0;
    for k in 0..bands.len() {
        place += lay(&plans[k], bands.at(k), &mut out[place..]);
    }
    Ok(blobs)
}

/// The blobs of bands, one behind the other, in this version and with this step between values that
/// they can tell.
///
/// Each is the blob of its raster, as `encode_view` gives it, with one exception: where its valid
/// pixels are those of the band before it, and some are valid and some are not, its mask has no
/// runs. They are the blobs of exactly one list of bands, whose values are within half a step of
/// the given ones, and are these at step 1. Together they have at most 2^27 bytes.
pub fn encode_bands(
    alloc: Global,
    bands: &Bands,
    version: Version,
    step: Step,
) -> Result<Bytes, EncodeFault>
    ensures depth { IsErrOf result EncodeFault.DepthNeedsV4 ↔ BandsNeedV4 version bands.now }
    ensures chosen { IfOk result (λ blobs. blobs ≡ chosen_bands None bands.now version step) }
    ensures few { IfOk result (λ blobs. length blobs ≤ 134217728) }
    ensures decodes { IfOk result (λ blobs. AreEncodedOnce blobs bands.now step) }
    ensures declares { IfOk result (λ blobs. DeclareEach blobs bands.now version step) }
{
    // for the proof: `len` ensures that there is a band
    let _len = bands.len();
    if needs_v4(version, bands.at(0).depth()) {
        return Err(EncodeFault::DepthNeedsV4);
    }
    let blobs = blobs_of(alloc, bands, version, step.get())?;
    Ok(Bytes::from_vec(blobs))
}
