//! Decoding a tile of bands into a caller's arrays.

ghost use Rattle.std.specs.Prelude.{◌≡◌, ◌≤◌, ◌<◌, ◌+◌, ◌-◌, ◌*◌, ◌^◌, ◌++◌, ◌↔◌, IfErr, IfOk};
ghost use Rattle.std.specs.Prelude.{IsErrOf, IsTrue, List, OnOk, drop, length, take};
ghost use Rattle.raster_cells.specs.Shapes.{IsShape};
ghost use Rattle.raster_values.specs.Raster.{Pixels};
ghost use Rattle.lerc_header.specs.Head.{HeadAt};
ghost use Rattle.lerc_header.specs.HeadFaults.{HasKey};
ghost use Rattle.lerc_grammar.specs.Bands.{BandsFaultAt};
ghost use Rattle.lerc_decode.specs.OverBands.{AreDecodedOver, AskOtherBandsRoom, HaveBandsRoom};
ghost use Rattle.lerc_decode.specs.OverBands.{IsBandsOverStop, band_bytes, mask_bytes};
ghost use Rattle.lerc_decode.specs.inside.OverNext.{IsNextFault, MayFollow};
ghost use Rattle.lerc_decode.specs.inside.OverWalk.{HaveFront, IsBandLaid, IsEndAt, last_part};

use crate::over::{OverFault, decode_over, front_header};
use crate::over_next::{next_over, tile_fault};
use lerc_grammar::{BandReason, BandsFault};
use lerc_header::{BlobReason, Header, KEY};
use raster_values::{GREATEST_BANDS, GREATEST_VALUES};

/// Why no tile was decoded into a caller's arrays.
#[derive(Clone, Copy, Debug, PartialEq, Eq)]
pub enum BandsOverFault {
    /// What is wrong with the tile first.
    Tile(BandsFault),
    /// A tile may not have so many bands as the first one, or they ask for arrays of other lengths.
    Sizes,
    /// So many blobs stand and another one begins, or the bytes are fewer blobs.
    Count,
}

/// How many bytes the values of a raster of the header's type and shape take.
fn values_len(header: &Header) -> usize
    requires { IsShape header.now.rows header.now.cols header.now.depth }
    ensures size { result ≡ band_bytes header.now }
    ensures few { result ≤ 67108864 }
{
    header.rows as usize * header.cols as usize * header.depth as usize * header.kind.bytes()
}

/// How many bytes its mask takes.
fn mask_len(header: &Header) -> usize
    requires { IsShape header.now.rows header.now.cols header.now.depth }
    ensures size { result ≡ mask_bytes header.now }
    ensures few { result ≤ 2097152 }
{
    (header.rows as usize * header.cols as usize + 7) / 8
}

/// Whether a tile may have so many bands of the header's type and shape, and arrays of these
/// lengths are theirs.
fn have_bands_room(header: &Header, bands: u32, values: usize, masks: usize) -> bool
    requires { IsShape header.now.rows header.now.cols header.now.depth }
    ensures { IsTrue result ↔ HaveBandsRoom header.now bands values masks }
{
    if bands < 1 || bands > GREATEST_BANDS {
        return false;
    }
    let each = u64::from(header.rows) * u64::from(header.cols) * u64::from(header.depth);
    if u64::from(bands) * each > GREATEST_VALUES {
        return false;
    }
    let count = bands as usize;
    values == count * values_len(header) && masks == count * mask_len(header)
}

/// Whether the bytes begin with a blob's key.
fn has_key(rest: &[u8]) -> bool
    ensures { IsTrue result ↔ HasKey rest.now }
{
    rest.len() >= 6 && rest[..6] == KEY[..]
}

/// Lays the last so many bytes of the first `to` behind these once more.
fn repeat_last(masks: &mut [u8], to: usize, size: usize)
    requires there { size ≤ to }
    requires within { to + size ≤ length masks.old }
    ensures { masks.new ≡ take to masks.old
        ++ (take size (drop (to - size) masks.old) ++ drop (to + size) masks.old) }
{
    let (front, back) = masks.split_at_mut(to);
    back[..size].copy_from_slice(&front[to - size..]);
}

/// A fault so many bytes further on.
fn fault_behind(fault: BandsFault, at: usize) -> BandsFault
    requires { at + fault.place < 2 ^ 64 }
    ensures { result ≡ record { reason = fault.reason; place = at + fault.place } }
{
    BandsFault {
        reason: fault.reason,
        place: at as u64 + fault.place,
    }
}

/// Bytes that are no further blob.
fn left_over(at: usize) -> BandsOverFault
    ensures { result ≡ BandsOverFault.Tile
        (record { reason = BandReason.Blob BlobReason.Leftover; place = at }) }
{
    BandsOverFault::Tile(BandsFault {
        reason: BandReason::Blob(BlobReason::Leftover),
        place: at as u64,
    })
}

/// What follows so many blobs, which are as many as are asked for.
fn end_over(tile: &[u8], at: usize, bands: u32) -> Result<(), BandsOverFault>
    requires { at ≤ length tile.now }
    ensures { IsEndAt tile.now at bands result }
{
    if at == tile.len() {
        return Ok(());
    }
    if bands < GREATEST_BANDS && has_key(&tile[at..]) {
        return Err(BandsOverFault::Count);
    }
    Err(left_over(at))
}

/// Decodes the first blob into the first parts of the arrays.
fn first_over(
    tile: &[u8],
    first: &Header,
    values: &mut [u8],
    masks: &mut [u8],
) -> Result<usize, BandsFault>
    requires head { HeadAt tile.now first.now }
    requires values { band_bytes first.now ≤ length values.old }
    requires masks { mask_bytes first.now ≤ length masks.old }
    ensures ok { IfOk result (λ size. HaveFront tile.now size first.now 1 values.new masks.new) }
    ensures fault { IfErr result (λ f. BandsFaultAt tile.now f.place f.reason) }
{
    let size = values_len(first);
    let mask = mask_len(first);
    match decode_over(tile, &mut values[..size], &mut masks[..mask]) {
        Ok(size) => Ok(size),
        Err(OverFault::Blob(fault)) => Err(tile_fault(fault)),
        Err(OverFault::Sizes) => unreachable!(),
    }
}

/// Decodes the blob with which these bytes begin, behind so many bands of the arrays, and answers
/// how many bytes it has.
fn band_over(
    rest: &[u8],
    first: &Header,
    count: usize,
    values: &mut [u8],
    masks: &mut [u8],
) -> Result<usize, BandsFault>
    requires shape { IsShape first.now.rows first.now.cols first.now.depth }
    requires count { (1 ≤ count) × (count < 16) }
    requires values { count * band_bytes first.now + band_bytes first.now ≤ length values.old }
    requires masks { count * mask_bytes first.now + mask_bytes first.now ≤ length masks.old }
    ensures ok { IfOk result (λ size. (bands : List Pixels) → MayFollow bands first.now
        (last_part (mask_bytes first.now) (count * mask_bytes first.now) masks.old) →
        IsBandLaid bands first.now rest.now size count values.old masks.old values.new masks.new) }
    ensures fault { IfErr result (λ fault. (bands : List Pixels) → MayFollow bands first.now
        (last_part (mask_bytes first.now) (count * mask_bytes first.now) masks.old) →
        IsNextFault bands rest.now fault) }
{
    let size = values_len(first);
    let at = count * size;
    let mask = mask_len(first);
    let to = count * mask;
    repeat_last(masks, to, mask);
    match next_over(
        rest,
        first,
        &mut values[at..at + size],
        &mut masks[to..to + mask],
    ) {
        Ok(used) => Ok(used),
        Err(fault) => Err(fault),
    }
}

/// Decodes the blobs into arrays that have room for so many bands.
fn walk_over(
    tile: &[u8],
    first: &Header,
    bands: u32,
    values: &mut [u8],
    masks: &mut [u8],
) -> Result<(), BandsOverFault>
    requires head { HeadAt tile.now first.now }
    requires room { HaveBandsRoom first.now bands (length values.old) (length masks.old) }
    ensures ok { OnOk result (AreDecodedOver tile.now bands values.new masks.new) }
    ensures stop { IfErr result (λ stop.
        IsBandsOverStop tile.now bands (length values.old) (length masks.old) stop) }
    ensures sizes { IsErrOf result BandsOverFault.Sizes → ⊥ }
{
    let mut at = match first_over(tile, first, values, masks) {
        Ok(size) => size,
        Err(fault) => return Err(BandsOverFault::Tile(fault)),
    };
    let mut count = 1usize;
    while count < bands as usize {
        if at == tile.len() {
            return Err(BandsOverFault::Count);
        }
        if !has_key(&tile[at..]) {
            return Err(left_over(at));
        }
        match band_over(&tile[at..], first, count, values, masks) {
            Ok(size) => {
                at += size;
                count += 1;
            }
            Err(fault) => return Err(BandsOverFault::Tile(fault_behind(fault, at))),
        }
    }
    end_over(tile, at, bands)
}

/// Decodes the tile of so many bands that all the bytes are into a caller's arrays: the bytes of
/// all values, band behind band, and the masks, one behind the other, as `decode_over` lays those
/// of one blob. How long they have to be the first header says, which is asked first.
///
/// No memory is taken. Where the answer is `Sizes` the arrays stay as they were; where it is
/// another error they hold anything.
pub fn decode_bands_over(
    tile: &[u8],
    bands: u32,
    values: &mut [u8],
    masks: &mut [u8],
) -> Result<(), BandsOverFault>
    ensures ok { OnOk result (AreDecodedOver tile.now bands values.new masks.new) }
    ensures stop { IfErr result (λ stop.
        IsBandsOverStop tile.now bands (length values.old) (length masks.old) stop) }
    ensures sizes { IsErrOf result BandsOverFault.Sizes
        ↔ AskOtherBandsRoom tile.now bands (length values.old) (length masks.old) }
    ensures kept { IsErrOf result BandsOverFault.Sizes
        → (values.new ≡ values.old) × (masks.new ≡ masks.old) }
{
    let header = match front_header(tile) {
        Ok(header) => header,
        Err(fault) => return Err(BandsOverFault::Tile(tile_fault(fault))),
    };
    if !have_bands_room(&header, bands, values.len(), masks.len()) {
        return Err(BandsOverFault::Sizes);
    }
    walk_over(tile, &header, bands, values, masks)
}
