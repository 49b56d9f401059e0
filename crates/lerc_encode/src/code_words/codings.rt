//! The values of a raster of bytes as symbols, and these as code words.

ghost use Rattle.std.specs.Prelude.{◌≡◌, ℕ, ◌+◌, ◌^◌, ◌≤◌, ◌&&◌, ◌∷◌, false, List, length, sum};
ghost use Rattle.std.specs.Prelude.{IsTrue, MatchOption};
ghost use Rattle.std.specs.Option.{option_map};
ghost use Rattle.delta_mode.specs.Symbols.{IsByteType};
ghost use Rattle.lerc_encode.specs.Codings.{coding_bytes, counts_of, have_codes};
ghost use Rattle.lerc_encode.specs.Images as images;
ghost use Rattle.lerc_encode.specs.Images.{is_v4};
ghost use Rattle.lerc_encode.specs.inside.Coded.{AreCodings, AreSymbols, IsCodingOf, mode_number};
ghost use Rattle.lerc_encode.specs.inside.Coded.{symbols_of};

use crate::code_words::byte_view::ByteView;
use crate::code_words::symbols::{SymbolMode, count_mode, write_words};
use huff_codes::{Lengths, counted_len, table_size, write_code_table};
use lerc_header::Version;
use raster_access::View;

/// The lengths of the codes of some symbols, and how many bytes their table and words take.
#[derive(Drop)]
pub(crate) struct Coding {
    pub(crate) lengths: Lengths,
    pub(crate) size: usize,
}

/// How the symbols of the differences are coded, and those of the values, where they may be.
#[derive(Drop)]
pub(crate) struct Codings {
    pub(crate) deltas: Option<Coding>,
    pub(crate) plains: Option<Coding>,
}

/// How symbols are coded that stand so often. None where they have no codes.
fn coding_of(counts: &[u32; 256]) -> Option<Coding>
    requires { sum counts.now ≤ 2 ^ 24 }
    ensures { (symbols : List ℕ) → counts.now ≡ counts_of symbols
        → MatchOption result (have_codes symbols ≡ false) (IsCodingOf symbols) }
{
    match Lengths::of(counts) {
        Some(lengths) => {
            let size = table_size(&lengths) + counted_len(counts, &lengths);
            Some(Coding { lengths, size })
        }
        None => None,
    }
}

/// Writes the code table of symbols and their code words over all of `out`.
fn write_coding<V: View>(mode: SymbolMode, coding: &Coding, bytes: &ByteView<V>, out: &mut [u8])
    requires coding { IsCodingOf (symbols_of mode (V.pixels bytes.now.raster.now)) coding.now }
    requires room { length out.old
        ≡ length (coding_bytes (symbols_of mode (V.pixels bytes.now.raster.now))) }
    ensures { out.new ≡ coding_bytes (symbols_of mode (V.pixels bytes.now.raster.now)) }
{
    // for the proof: `kind` ensures that the raster is a lawful one
    let _kind = bytes.raster.kind();
    let table = table_size(&coding.lengths).min(out.len());
    write_code_table(&coding.lengths, &mut out[..table]);
    write_words(mode, bytes, &coding.lengths, &mut out[table..]);
}

/// The number that names the mode in a blob.
fn number_of(mode: SymbolMode) -> u8
    ensures { result ≡ mode_number mode }
{
    match mode {
        SymbolMode::Deltas => 1,
        SymbolMode::Plain => 2,
    }
}

/// Writes the form of coded symbols: a sweep byte, the mode byte, the table and the words.
pub(crate) fn write_coded_form<V: View>(
    mode: SymbolMode,
    coding: &Option<Coding>,
    raster: &V,
    out: &mut [u8],
)
    requires kind { IsByteType (V.pixels raster.now).kind }
    requires coding { MatchOption coding.now ⊥
        (IsCodingOf (symbols_of mode (V.pixels raster.now))) }
    requires room { length out.old
        ≡ length (0 ∷ mode_number mode ∷ coding_bytes (symbols_of mode (V.pixels raster.now))) }
    ensures { out.new
        ≡ 0 ∷ mode_number mode ∷ coding_bytes (symbols_of mode (V.pixels raster.now)) }
{
    let bytes = ByteView { raster };
    out[0] = 0;
    out[1] = number_of(mode);
    if let Some(coding) = coding {
        write_coding(mode, coding, &bytes, &mut out[2..]);
    }
}

/// How many bytes the form of coded symbols takes.
pub(crate) fn coded_form_len(coding: &Option<Coding>) -> Option<usize>
    requires { MatchOption coding.now Unit (λ c. c.size ≤ 67110912) }
    ensures { result ≡ option_map (λ c. c.size + 2) coding.now }
{
    match coding {
        Some(coding) => Some(coding.size + 2),
        None => None,
    }
}

/// Whether symbols may stand for values: these take a byte each and none may change.
pub(crate) fn has_mode<V: View>(raster: &V, step: u64) -> bool
    ensures { result ≡ images.has_mode (V.pixels raster.now) step }
{
    raster.kind().bytes() == 1 && step == 1
}

/// How the symbols of a mode are coded, where they are wanted.
fn mode_coding<V: View>(mode: SymbolMode, raster: &V, wanted: bool) -> Option<Coding>
    requires { IsTrue wanted → IsByteType (V.pixels raster.now).kind }
    ensures { AreSymbols wanted (symbols_of mode (V.pixels raster.now)) result }
{
    if wanted {
        let bytes = ByteView { raster };
        coding_of(&count_mode(mode, &bytes))
    } else {
        None
    }
}

/// How the symbols of a raster's values are coded, as far as the version and the step allow it.
pub(crate) fn codings_of<V: View>(raster: &V, version: Version, step: u64) -> Codings
    ensures { AreCodings (V.pixels raster.now) version step result }
{
    let mode = has_mode(raster, step);
    Codings {
        deltas: mode_coding(SymbolMode::Deltas, raster, mode),
        plains: mode_coding(SymbolMode::Plain, raster, mode && is_version_4(version)),
    }
}

/// Whether the version is 4.
fn is_version_4(version: Version) -> bool
    ensures { result ≡ is_v4 version }
{
    match version {
        Version::V3 => false,
        Version::V4 => true,
    }
}
