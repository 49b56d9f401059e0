//! What is chosen for the image of a raster.

ghost use Rattle.std.specs.Prelude.{◌≡◌, ◌≤◌, ◌&&◌, ◌⊎◌, IfOk, Some};
ghost use Rattle.lerc_encode.specs.Images.{is_v4};
ghost use Rattle.lerc_encode.specs.Ranges as ranges;
ghost use Rattle.lerc_encode.specs.inside.Choosing as inside;
ghost use Rattle.lerc_encode.specs.inside.Choosing.{AreRanges, IsBase, IsChosen, IsTail};

use crate::blocks::block_view::BothSides;
use crate::blocks::sides::measure_sides;
use crate::code_words::codings::{coded_form_len, codings_of};
use crate::image::forms::{Chosen, ValueForm, block_form_len, sweep_len, with_large};
use crate::image::ranging::Ranges;
use lerc_header::{Header, Version};
use micro_block::first_least;
use raster_access::View;
use std::alloc::{AllocError, Global};

/// How an image ends.
#[derive(Drop)]
pub(crate) enum Tail {
    /// Before the lists: no pixel is valid.
    Empty,
    /// Before the lists: all values are one.
    Constant,
    /// Behind the lists, which are equal: each depth has one value.
    Ranges,
    /// With the values in a form.
    Coded(Chosen),
}

/// The form at a place in their order.
fn form_at(place: usize) -> ValueForm
    ensures { result ≡ inside.form_at place }
{
    match place {
        0 => ValueForm::Sweep,
        1 => ValueForm::SmallBlocks,
        2 => ValueForm::LargeBlocks,
        3 => ValueForm::Delta,
        _ => ValueForm::Plain,
    }
}

/// The least of the sizes that are known before blocks are looked at.
fn least_known(sweep: usize, deltas: Option<usize>, plains: Option<usize>) -> usize
    ensures one { (result ≡ sweep) ⊎ ((deltas ≡ Some result) ⊎ (plains ≡ Some result)) }
    ensures few { result ≤ sweep }
{
    let least = sweep.min(deltas.unwrap_or(sweep));
    least.min(plains.unwrap_or(sweep))
}

/// The form with the fewest bytes, of several the first. Blocks are measured no further than up to
/// the size of another form.
fn choose<V: View>(alloc: Global, base: &Header, raster: &V) -> Result<Chosen, AllocError>
    requires { IsBase base.now (V.pixels raster.now) }
    ensures { IfOk result (IsChosen (V.pixels raster.now) base.now.version base.now.step) }
{
    let codings = codings_of(raster, base.version, base.step);
    let sweep = sweep_len(raster);
    let deltas = coded_form_len(&codings.deltas);
    let plains = coded_form_len(&codings.plains);
    let most = least_known(sweep, deltas, plains);
    let large_base = with_large(base);
    let both = BothSides {
        small: base,
        large: &large_base,
        raster,
        most,
    };
    let sides = measure_sides(alloc, &both)?;
    let sizes = [
        Some(sweep),
        block_form_len(base, raster, &sides.small),
        block_form_len(&large_base, raster, &sides.large),
        deltas,
        plains,
    ];
    let (place, size) = first_least(&sizes).unwrap_or((0, 0));
    Ok(Chosen {
        form: form_at(place),
        size,
        codings,
        small: sides.small,
        large: sides.large,
    })
}

/// Whether no pixel is valid.
fn is_empty<V: View>(base: &Header, raster: &V) -> bool
    requires { IsBase base.now (V.pixels raster.now) }
    ensures { result ≡ ranges.is_empty (V.pixels raster.now) }
{
    base.valid == 0
}

/// Whether all values are one.
fn is_constant<V: View>(base: &Header, raster: &V) -> bool
    requires { IsBase base.now (V.pixels raster.now) }
    ensures { result ≡ ranges.is_constant (V.pixels raster.now) }
{
    base.least == base.greatest
}

/// Whether the image ends behind the lists.
fn ends_behind_lists<V: View>(version: Version, found: &Ranges, raster: &V) -> bool
    requires { AreRanges (V.pixels raster.now) found.now }
    ensures { result ≡ (is_v4 version && ranges.has_equal_ranges (V.pixels raster.now)) }
{
    match version {
        Version::V3 => false,
        Version::V4 => found.equal,
    }
}

/// How the image of a raster ends.
pub(crate) fn tail_of<V: View>(
    alloc: Global,
    base: &Header,
    found: &Ranges,
    raster: &V,
) -> Result<Tail, AllocError>
    requires base { IsBase base.now (V.pixels raster.now) }
    requires ranges { AreRanges (V.pixels raster.now) found.now }
    ensures { IfOk result (IsTail (V.pixels raster.now) base.now.version base.now.step) }
{
    if is_empty(base, raster) {
        return Ok(Tail::Empty);
    }
    if is_constant(base, raster) {
        return Ok(Tail::Constant);
    }
    if ends_behind_lists(base.version, found, raster) {
        return Ok(Tail::Ranges);
    }
    Ok(Tail::Coded(choose(alloc, base, raster)?))
}
