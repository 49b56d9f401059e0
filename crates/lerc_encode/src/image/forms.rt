//! The forms of an image's values: how many bytes each takes, and these bytes.

ghost use Rattle.std.specs.Prelude.{◌≡◌, ◌+◌, ◌*◌, ◌≤◌, ◌∷◌, ◌++◌, length, MatchOption};
ghost use Rattle.std.specs.Option.{option_map};
ghost use Rattle.raster_cells.specs.Values.{values_bytes};
ghost use Rattle.raster_cells.specs.PixelType.{bytes_of};
ghost use Rattle.lerc_header.specs.declared.header.Version.TheVariants.{V4};
ghost use Rattle.raster_values.specs.Raster.{values_of};
ghost use Rattle.lerc_grammar.specs.Blocks.{coded_blocks};
ghost use Rattle.lut_stuff.specs.Facts.{Rises};
ghost use Rattle.lerc_encode.specs.Images.{blocks_bytes, coded_form_bytes, mode_bytes};
ghost use Rattle.lerc_encode.specs.Ranges.{greatests, leasts, lists_bytes};
ghost use Rattle.lerc_encode.specs.inside.Blocked.{AreFlags, IsMeasured};
ghost use Rattle.lerc_encode.specs.inside.Choosing.{AreRanges, IsBase, IsChosen, named};

use crate::blocks::block_view::BlockView;
use crate::blocks::chosen_blocks::{Measured, write_blocks};
use crate::blocks::flags::Flags;
use crate::code_words::codings::{Codings, has_mode, write_coded_form};
use crate::code_words::symbols::SymbolMode;
use crate::image::ranging::{Ranges, range_at};
use lerc_header::{Header, Version};
use raster_access::View;

/// The forms of an image's values, in the order in which they are tried.
#[derive(Clone, Copy)]
pub(crate) enum ValueForm {
    /// The values as they are.
    Sweep,
    /// Blocks of 8 rows and columns.
    SmallBlocks,
    /// Blocks of 16 rows and columns.
    LargeBlocks,
    /// Differences in code words.
    Delta,
    /// Values in code words.
    Plain,
}

/// The form that is chosen for an image's values, and the number of its bytes; and what is known of
/// the values: their symbols, and their blocks of both sides, where these may be the shortest.
#[derive(Drop)]
pub(crate) struct Chosen {
    pub(crate) form: ValueForm,
    pub(crate) size: usize,
    pub(crate) codings: Codings,
    pub(crate) small: Option<Measured>,
    pub(crate) large: Option<Measured>,
}

/// The header with blocks of 16 rows and columns.
pub(crate) fn with_large(base: &Header) -> Header
    ensures { result ≡ record base.now { side = 16 } }
{
    Header { side: 16, ..*base }
}

/// How many bytes the sweep takes.
pub(crate) fn sweep_len<V: View>(raster: &V) -> usize
    ensures value { result
        ≡ length (1 ∷ values_bytes (V.pixels raster.now).kind
        (values_of (V.pixels raster.now).pixels)) }
    ensures few { result ≤ 67108865 }
{
    1 + raster.valid_count() as usize * raster.depth() as usize * raster.kind().bytes()
}

/// How many bytes the form of blocks takes, where all of these were measured.
pub(crate) fn block_form_len<V: View>(
    h: &Header,
    raster: &V,
    found: &Option<Measured>,
) -> Option<usize>
    requires { MatchOption found.now Unit (λ m. m.size ≤ 1025 * 16777216) }
    ensures { result
        ≡ option_map (λ m. 1 + length (mode_bytes (V.pixels raster.now) h.now.step)
        + m.size) found.now }
{
    match found {
        Some(measured) => Some(1 + usize::from(has_mode(raster, h.step)) + measured.size),
        None => None,
    }
}

/// Writes the sweep.
fn write_sweep<V: View>(raster: &V, out: &mut [u8])
    requires { length out.old
        ≡ length (1 ∷ values_bytes (V.pixels raster.now).kind
        (values_of (V.pixels raster.now).pixels)) }
    ensures { out.new ≡ 1 ∷ values_bytes (V.pixels raster.now).kind
        (values_of (V.pixels raster.now).pixels) }
{
    // for the proof: `kind` ensures that the raster is a lawful one
    let _kind = raster.kind();
    out[0] = 1;
    raster.value_bytes(&mut out[1..]);
}

/// Writes the form of blocks, of which some in the groups that are told have tables, some of these
/// values.
fn write_measured<V: View>(blocks: &BlockView<V>, tables: &Flags, values: &[u32], out: &mut [u8])
    requires tables { AreFlags blocks.now.header.now (V.pixels blocks.now.raster.now)
        (coded_blocks blocks.now.header.now) tables.now }
    requires rises { Rises values.now }
    requires few { length values.now ≤ 256 }
    requires room { length out.old
        ≡ length (0 ∷ (mode_bytes (V.pixels blocks.now.raster.now) blocks.now.header.now.step
        ++ blocks_bytes blocks.now.header.now (V.pixels blocks.now.raster.now))) }
    ensures { out.new ≡ 0 ∷ (mode_bytes (V.pixels blocks.now.raster.now)
        blocks.now.header.now.step
        ++ blocks_bytes blocks.now.header.now (V.pixels blocks.now.raster.now)) }
{
    out[0] = 0;
    if has_mode(blocks.raster, blocks.header.step) {
        out[1] = 0;
        write_blocks(blocks, tables, values, &mut out[2..]);
    } else {
        write_blocks(blocks, tables, values, &mut out[1..]);
    }
}

/// Writes the form of blocks, which were measured.
fn write_block_form<V: View>(blocks: &BlockView<V>, found: &Option<Measured>, out: &mut [u8])
    requires measured { MatchOption found.now ⊥
        (IsMeasured blocks.now.header.now (V.pixels blocks.now.raster.now)) }
    requires room { length out.old
        ≡ length (0 ∷ (mode_bytes (V.pixels blocks.now.raster.now) blocks.now.header.now.step
        ++ blocks_bytes blocks.now.header.now (V.pixels blocks.now.raster.now))) }
    ensures { out.new ≡ 0 ∷ (mode_bytes (V.pixels blocks.now.raster.now)
        blocks.now.header.now.step
        ++ blocks_bytes blocks.now.header.now (V.pixels blocks.now.raster.now)) }
{
    if let Some(measured) = found {
        write_measured(blocks, &measured.tables, measured.values.as_slice(), out);
    }
}

/// Writes the chosen form over all of `out`.
pub(crate) fn write_form<V: View>(chosen: &Chosen, base: &Header, raster: &V, out: &mut [u8])
    requires base { IsBase base.now (V.pixels raster.now) }
    requires chosen { IsChosen (V.pixels raster.now) base.now.version base.now.step chosen.now }
    requires room { length out.old
        ≡ length (coded_form_bytes (V.pixels raster.now) base.now.version base.now.step
        (named chosen.now.form)) }
    ensures { out.new ≡ coded_form_bytes (V.pixels raster.now) base.now.version base.now.step
        (named chosen.now.form) }
{
    match chosen.form {
        ValueForm::Sweep => write_sweep(raster, out),
        ValueForm::SmallBlocks => {
            let small = BlockView {
                header: base,
                raster,
            };
            write_block_form(&small, &chosen.small, out);
        }
        ValueForm::LargeBlocks => {
            let header = with_large(base);
            let large = BlockView {
                header: &header,
                raster,
            };
            write_block_form(&large, &chosen.large, out);
        }
        ValueForm::Delta => {
            write_coded_form(SymbolMode::Deltas, &chosen.codings.deltas, raster, out)
        }
        ValueForm::Plain => {
            write_coded_form(SymbolMode::Plain, &chosen.codings.plains, raster, out)
        }
    }
}

/// How many bytes the lists in front of an image take.
pub(crate) fn front_len<V: View>(version: Version, raster: &V) -> usize
    ensures value { result ≡ length (lists_bytes (V.pixels raster.now) version) }
    ensures few { result ≤ 524288 }
{
    match version {
        Version::V3 => 0,
        Version::V4 => 2 * raster.depth() as usize * raster.kind().bytes(),
    }
}

/// Writes the least value of each depth over all of `low`, and the greatest over all of `high`.
fn write_ranges<V: View>(ranges: &Ranges, raster: &V, low: &mut [u8], high: &mut [u8])
    requires ranges { AreRanges (V.pixels raster.now) ranges.now }
    requires low { length low.old
        ≡ (V.pixels raster.now).depth * bytes_of (V.pixels raster.now).kind }
    requires high { length high.old
        ≡ (V.pixels raster.now).depth * bytes_of (V.pixels raster.now).kind }
    ensures least { low.new
        ≡ values_bytes (V.pixels raster.now).kind (leasts (V.pixels raster.now)) }
    ensures greatest { high.new
        ≡ values_bytes (V.pixels raster.now).kind (greatests (V.pixels raster.now)) }
{
    let kind = raster.kind();
    let size = kind.bytes();
    for d in 0..raster.depth() {
        let found = range_at(ranges, raster, d);
        let place = d as usize * size;
        kind.write_value(found.least, &mut low[place..]);
        kind.write_value(found.greatest, &mut high[place..]);
    }
}

/// Writes both lists.
fn write_lists<V: View>(ranges: &Ranges, raster: &V, out: &mut [u8])
    requires ranges { AreRanges (V.pixels raster.now) ranges.now }
    requires room { length out.old ≡ length (lists_bytes (V.pixels raster.now) V4) }
    ensures { out.new ≡ lists_bytes (V.pixels raster.now) V4 }
{
    let half = out.len() / 2;
    let (low, high) = out.split_at_mut(half);
    write_ranges(ranges, raster, low, high);
}

/// Writes the lists in front of an image, if the version has them.
pub(crate) fn write_front<V: View>(version: Version, ranges: &Ranges, raster: &V, out: &mut [u8])
    requires ranges { AreRanges (V.pixels raster.now) ranges.now }
    requires room { length out.old ≡ length (lists_bytes (V.pixels raster.now) version) }
    ensures { out.new ≡ lists_bytes (V.pixels raster.now) version }
{
    match version {
        Version::V3 => {}
        Version::V4 => write_lists(ranges, raster, out),
    }
}
