//! Values that are coded as symbols: a code table, and the words of one symbol for each value.

ghost use Rattle.std.specs.Prelude.{◌≡◌, ◌≤◌, ◌*◌, ◌+◌, ◌<◌, ◌^◌, ◌++◌, ℕ, IfErr, List, OnOk};
ghost use Rattle.std.specs.Prelude.{length};
ghost use Rattle.first_fault.specs.Faults.{moved};
ghost use Rattle.delta_mode.specs.Deltas.{ArePlain};
ghost use Rattle.huff_codes.specs.Words.{AreWords};
ghost use Rattle.lerc_grammar.specs.Codes.{AreAllDeltas, codes_faults};
ghost use Rattle.lerc_grammar.specs.Image.{value_count};
ghost use Rattle.lerc_grammar.specs.Reasons.{code_reason};
ghost use Rattle.lerc_decode.specs.inside.Body.{IsFaultIn, KeepsFrame};
ghost use Rattle.lerc_decode.specs.inside.Codes.{HasDeltas, HasPlain, IsCodedAs, words_faults};
ghost use Rattle.lerc_decode.specs.inside.Words.{AreWordsLeft, frame_of, have_come, left_in};

use crate::blob::faults::{reason_of_code, refuse};
use crate::blob::words::Words;
use delta_mode::{SymbolSource, undelta_from, unplain_from};
use huff_codes::{CodeFault, Codes, read_table};
use lerc_header::{BlobFault, BlobReason, Header};
use raster_access::Target;

/// How many values the image has.
fn value_len(header: &Header) -> usize
    requires { header.now.valid * header.now.depth ≤ 16777216 }
    ensures value { result ≡ value_count header.now }
    ensures few { result ≤ 16777216 }
{
    header.valid as usize * header.depth as usize
}

/// A fault of the codes that begin at this place.
fn refuse_code(fault: CodeFault, place: usize) -> Result<(), BlobFault>
    requires { place + fault.at < 2 ^ 63 }
    ensures { result ≡ Err (record {
      reason = code_reason fault.reason;
      place = place + fault.at;
    }) }
{
    refuse(reason_of_code(fault.reason), place + fault.at)
}

/// Ends the words, which are the blob's last bytes and begin at this place.
fn end_words(words: &Words, rest: &[u8], place: usize) -> Result<(), BlobFault>
    requires sound { AreWordsLeft words.now }
    requires all { left_in words.now ≡ 0 }
    requires bytes { (frame_of words.now).bytes ≡ rest.now }
    requires few { place + length rest.now < 2 ^ 62 }
    ensures ok { (symbols : List ℕ) → have_come words.now symbols
        → length symbols ≡ (frame_of words.now).total → OnOk result
        (AreWords (frame_of words.now).codes (frame_of words.now).total rest.now symbols) }
    ensures fault { IfErr result (λ fault. IsFaultIn (moved place
        (words_faults (frame_of words.now).codes (frame_of words.now).total rest.now)) fault) }
{
    match words.end() {
        Ok(used) if used < rest.len() => refuse(BlobReason::Leftover, place + used),
        Ok(_) => Ok(()),
        Err(fault) => refuse_code(fault, place),
    }
}

/// Gives the valid pixels the values that the symbols of the differences say, depth by depth.
fn take_deltas<S: SymbolSource, T: Target>(
    source: &mut S,
    header: &Header,
    raster: &mut T,
) -> Result<(), S::Stop>
    requires coded { IsCodedAs header.now (T.pixels raster.old) }
    requires count { value_count header.now ≤ S.left source.old }
    requires ready { S.sound source.old }
    ensures taken { (before : List ℕ) → S.has_given source.old before
        → OnOk result ((symbols : List ℕ) × (S.has_given source.new (before ++ symbols)
        × ((length symbols ≡ value_count header.now)
        × AreAllDeltas header.now (T.pixels raster.new) symbols))) }
    ensures left { OnOk result (S.left source.new + value_count header.now ≡ S.left source.old) }
    ensures stop { IfErr result (λ f. S.stops (S.kept source.old) f) }
    ensures ready { S.sound source.new }
    ensures sources { S.kept source.new ≡ S.kept source.old }
    ensures frame { KeepsFrame (T.pixels raster.old) (T.pixels raster.new)
        (T.kept raster.old) (T.kept raster.new) }
{
    for d in 0..header.depth {
        undelta_from(source, raster, d)?;
    }
    Ok(())
}

/// Gives the valid pixels the values of the words of differences, which begin at this place.
fn scatter_delta_words<T: Target>(
    rest: &[u8],
    place: usize,
    codes: &Codes,
    header: &Header,
    raster: &mut T,
) -> Result<(), BlobFault>
    requires coded { IsCodedAs header.now (T.pixels raster.old) }
    requires few { place + length rest.now < 2 ^ 62 }
    ensures ok { OnOk result ((symbols : List ℕ)
        × (AreWords codes.now (value_count header.now) rest.now symbols
        × AreAllDeltas header.now (T.pixels raster.new) symbols)) }
    ensures fault { IfErr result (λ fault. IsFaultIn
        (moved place (words_faults codes.now (value_count header.now) rest.now)) fault) }
    ensures frame { KeepsFrame (T.pixels raster.old) (T.pixels raster.new)
        (T.kept raster.old) (T.kept raster.new) }
{
    let mut words = Words::of(rest, codes, value_len(header));
    match take_deltas(&mut words, header, raster) {
        Ok(()) => end_words(&words, rest, place),
        Err(fault) => refuse_code(fault, place),
    }
}

/// Gives the valid pixels the values of a table and words of differences, which begin at this
/// place.
pub(crate) fn scatter_deltas<T: Target>(
    rest: &[u8],
    place: usize,
    header: &Header,
    raster: &mut T,
) -> Result<(), BlobFault>
    requires coded { IsCodedAs header.now (T.pixels raster.old) }
    requires few { place + length rest.now < 2 ^ 62 }
    ensures ok { OnOk result (HasDeltas header.now rest.now (T.pixels raster.new)) }
    ensures fault { IfErr result (λ fault. IsFaultIn
        (moved place (codes_faults (value_count header.now) rest.now)) fault) }
    ensures frame { KeepsFrame (T.pixels raster.old) (T.pixels raster.new)
        (T.kept raster.old) (T.kept raster.new) }
{
    match read_table(rest) {
        Ok((codes, used)) => {
            scatter_delta_words(&rest[used..], place + used, &codes, header, raster)
        }
        Err(fault) => refuse_code(fault, place),
    }
}

/// Gives the valid pixels the values that the symbols say.
fn take_plain<S: SymbolSource, T: Target>(
    source: &mut S,
    header: &Header,
    raster: &mut T,
) -> Result<(), S::Stop>
    requires coded { IsCodedAs header.now (T.pixels raster.old) }
    requires count { value_count header.now ≤ S.left source.old }
    requires ready { S.sound source.old }
    ensures taken { (before : List ℕ) → S.has_given source.old before
        → OnOk result ((symbols : List ℕ) × (S.has_given source.new (before ++ symbols)
        × ((length symbols ≡ value_count header.now)
        × ArePlain (T.pixels raster.new) symbols))) }
    ensures left { OnOk result (S.left source.new + value_count header.now ≡ S.left source.old) }
    ensures stop { IfErr result (λ f. S.stops (S.kept source.old) f) }
    ensures ready { S.sound source.new }
    ensures sources { S.kept source.new ≡ S.kept source.old }
    ensures frame { KeepsFrame (T.pixels raster.old) (T.pixels raster.new)
        (T.kept raster.old) (T.kept raster.new) }
{
    unplain_from(source, raster)
}

/// Gives the valid pixels the values of the words, which begin at this place.
fn scatter_plain_words<T: Target>(
    rest: &[u8],
    place: usize,
    codes: &Codes,
    header: &Header,
    raster: &mut T,
) -> Result<(), BlobFault>
    requires coded { IsCodedAs header.now (T.pixels raster.old) }
    requires few { place + length rest.now < 2 ^ 62 }
    ensures ok { OnOk result ((symbols : List ℕ)
        × (AreWords codes.now (value_count header.now) rest.now symbols
        × ArePlain (T.pixels raster.new) symbols)) }
    ensures fault { IfErr result (λ fault. IsFaultIn
        (moved place (words_faults codes.now (value_count header.now) rest.now)) fault) }
    ensures frame { KeepsFrame (T.pixels raster.old) (T.pixels raster.new)
        (T.kept raster.old) (T.kept raster.new) }
{
    let mut words = Words::of(rest, codes, value_len(header));
    match take_plain(&mut words, header, raster) {
        Ok(()) => end_words(&words, rest, place),
        Err(fault) => refuse_code(fault, place),
    }
}

/// Gives the valid pixels the values of a table and words, which begin at this place.
pub(crate) fn scatter_plain<T: Target>(
    rest: &[u8],
    place: usize,
    header: &Header,
    raster: &mut T,
) -> Result<(), BlobFault>
    requires coded { IsCodedAs header.now (T.pixels raster.old) }
    requires few { place + length rest.now < 2 ^ 62 }
    ensures ok { OnOk result (HasPlain header.now rest.now (T.pixels raster.new)) }
    ensures fault { IfErr result (λ fault. IsFaultIn
        (moved place (codes_faults (value_count header.now) rest.now)) fault) }
    ensures frame { KeepsFrame (T.pixels raster.old) (T.pixels raster.new)
        (T.kept raster.old) (T.kept raster.new) }
{
    match read_table(rest) {
        Ok((codes, used)) => {
            scatter_plain_words(&rest[used..], place + used, &codes, header, raster)
        }
        Err(fault) => refuse_code(fault, place),
    }
}
