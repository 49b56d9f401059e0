//! What the tiles of a sample come to.

ghost use Rattle.std.specs.Prelude.{◌≡◌, ◌+◌, ◌*◌, ◌<◌, ◌≤◌, ◌-ℤ◌, ◌∷◌, [], ℕ, List, pos, IfOk, OnOk, get_or, length, unsigned_abs};
ghost use Rattle.raster_cells.specs.declared.kind.PixelType.{PixelType};
ghost use Rattle.raster_cells.specs.PixelType.{InRange};
ghost use Rattle.raster_values.specs.Raster.{Pixels};
ghost use Rattle.lerc_header.specs.Head.{u32_at};
ghost use Rattle.lerc_grammar.specs.Bands.{BandsBlob};
ghost use Rattle.sample_tiles.specs.Drawn.{drawn, sample_tile};
ghost use Rattle.sample_tiles.specs.Sums.{AreSums, off_by, sample_blob};
ghost use Rattle.sample_tiles.specs.inside.Batches.{AreRoomy, AreTheirs, AreTiles, IsFitting, IsTileLike};

use byteorder::{ByteOrder, LittleEndian};
use lerc_decode::{BandsStop, decode_bands};
use raster_values::{Bands, Raster};
use std::alloc::{AllocError, Global};
use tile_workers::Blobs;

/// How many pixels a tile has.
const PLACES: usize = 4096;

/// What the first tiles of a sample come to.
#[derive(Clone, Copy, Debug, PartialEq, Eq)]
pub struct Sums {
    pub tiles: u32,
    /// How many bytes the blobs have.
    pub bytes: u64,
    /// The greatest difference of a value from its decoded one.
    pub worst: u64,
    /// The sum of the blobs' checksums, modulo 2^32.
    pub checksums: u32,
}

/// The greatest of the differences at each place of two lists.
fn greatest_difference(given: &[i64], found: &[i64]) -> u64
    requires same { length given.now ≡ length found.now }
    requires fits { (k : ℕ) → k < length given.now
        → InRange PixelType.I16 (get_or given.now k (pos 0))
        × InRange PixelType.I16 (get_or found.now k (pos 0)) }
    ensures bound { (k : ℕ) → k < length given.now
        → unsigned_abs (get_or given.now k (pos 0) -ℤ get_or found.now k (pos 0)) ≤ result }
    ensures met { 0 < result → (k : ℕ) × ((k < length given.now)
        × (unsigned_abs (get_or given.now k (pos 0) -ℤ get_or found.now k (pos 0)) ≡ result)) }
{
    let mut greatest = 0;
    for i in 0..given.len() {
        greatest = greatest.max((given[i] - found[i]).unsigned_abs());
    }
    greatest
}

/// The greatest difference of a pixel of one tile from that of the other.
fn greatest_offset(tile: &Raster, other: &Raster) -> u64
    requires shapes { IsTileLike tile.now × IsTileLike other.now }
    ensures bound { (k : ℕ) → k < 4096 → off_by tile.now other.now k ≤ result }
    ensures met { 0 < result → (k : ℕ) × ((k < 4096)
        × (off_by tile.now other.now k ≡ result)) }
{
    let mut given = [0; PLACES];
    let mut found = [0; PLACES];
    tile.values_from(0, 0, &mut given);
    other.values_from(0, 0, &mut found);
    greatest_difference(&given, &found)
}

/// The bands that a blob decodes to.
fn decode_blob(alloc: Global, blob: &[u8]) -> Result<Bands, AllocError>
    requires { (bands : List Pixels) × BandsBlob blob.now bands }
    ensures { IfOk result (BandsBlob blob.now) }
{
    match decode_bands(alloc, blob) {
        Ok(bands) => Ok(bands),
        Err(BandsStop::OutOfMemory) => Err(AllocError),
        Err(BandsStop::Fault(_)) => unreachable!(),
    }
}

/// How far the pixels of a tile are from those that its blob decodes to.
fn error_of(alloc: Global, tile: &Raster, blob: &[u8]) -> Result<u64, AllocError>
    requires like { IsTileLike tile.now }
    requires fitting { IsFitting (tile.now ∷ []) blob.now }
    ensures bound { IfOk result (λ n. (r : Pixels) (k : ℕ) → BandsBlob blob.now (r ∷ [])
        → k < 4096 → off_by tile.now r k ≤ n) }
    ensures met { IfOk result (λ n. 0 < n → (r : Pixels) × ((k : ℕ)
        × (BandsBlob blob.now (r ∷ []) × (k < 4096) × (off_by tile.now r k ≡ n)))) }
    ensures near { IfOk result (λ n. n ≤ 1) }
{
    let bands = decode_blob(alloc, blob)?;
    Ok(greatest_offset(tile, bands.at(0)))
}

/// The checksum that stands in a blob.
#[tactic(auto, unfolding(lerc_header::specs::Head::u32_at))]
fn checksum_in(blob: &[u8]) -> u32
    requires { 14 ≤ length blob.now }
    ensures { result ≡ u32_at blob.now 10 }
{
    LittleEndian::read_u32(&blob[10..])
}

/// Adds one tile and its blob.
fn add(alloc: Global, tile: &Bands, blob: &[u8], sums: &mut Sums) -> Result<(), AllocError>
    requires few { sums.old.tiles < 4096 }
    requires roomy { AreRoomy sums.old }
    requires near { sums.old.worst ≤ 1 }
    requires one { (start t : ℕ) × (tile.now ≡ sample_tile start t ∷ []) }
    requires fitting { IsFitting tile.now blob.now }
    ensures tiles { OnOk result (sums.new.tiles ≡ sums.old.tiles + 1) }
    ensures roomy { OnOk result (AreRoomy sums.new) }
    ensures near { OnOk result (sums.new.worst ≤ 1) }
    ensures sums { (start : ℕ) → tile.now ≡ sample_tile start sums.old.tiles ∷ []
        → blob.now ≡ sample_blob start sums.old.tiles → AreSums start sums.old.tiles sums.old
        → OnOk result (AreSums start sums.new.tiles sums.new) }
{
    // for the proof: `len` ensures that the tile is a raster
    let _len = tile.len();
    let error = error_of(alloc, tile.at(0), blob)?;
    sums.tiles += 1;
    sums.bytes += blob.len() as u64;
    sums.worst = sums.worst.max(error);
    sums.checksums = sums.checksums.wrapping_add(checksum_in(blob));
    Ok(())
}

/// Adds tiles and their blobs, one after the other.
pub(crate) fn add_all(
    alloc: Global,
    tiles: &[Bands],
    blobs: &Blobs,
    sums: &mut Sums,
) -> Result<(), AllocError>
    requires few { sums.old.tiles + length tiles.now ≤ 4096 }
    requires roomy { AreRoomy sums.old }
    requires near { sums.old.worst ≤ 1 }
    requires are { (start first : ℕ) × AreTiles start first (length tiles.now) tiles.now }
    requires theirs { AreTheirs tiles.now blobs.now }
    ensures tiles { OnOk result (sums.new.tiles ≡ sums.old.tiles + length tiles.now) }
    ensures roomy { OnOk result (AreRoomy sums.new) }
    ensures near { OnOk result (sums.new.worst ≤ 1) }
    ensures sums { (start : ℕ) → AreTiles start sums.old.tiles (length tiles.now) tiles.now
        → AreSums start sums.old.tiles sums.old
        → OnOk result (AreSums start sums.new.tiles sums.new) }
{
    for i in 0..tiles.len() {
        add(alloc, &tiles[i], blobs.at(i), sums)?;
    }
    Ok(())
}
