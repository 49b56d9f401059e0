//! Images: what a crash leaves of a volume in memory.

ghost use Rattle.std.specs.Prelude.{◌≡◌, ◌<◌, ◌^◌, ℕ, List, [], IfOk, length};
ghost use Rattle.outside_io.specs.volume.Disk.{AreBytes, Disk, file_of, settled};
ghost use Rattle.outside_io.specs.volume.Pick.{IsPicked, IsTorn};
ghost use Rattle.outside_io.specs.inside.Fills.{fills};
ghost use Rattle.outside_io.specs.volume.Pieces.{pieces_of};
ghost use Rattle.outside_io.specs.inside.Effects.{AllFit, AllEndWithin, AllInPool, effects};
ghost use Rattle.outside_io.specs.volume.Recorded.{replay};
ghost use Rattle.outside_io.specs.volume.Sparse.{sparse_bytes};

use super::VolFile;
use super::call_log::{Call, add_written, len_of, synced_by};
use super::start::{Piece, Start, fill_bytes};
use std::alloc::{AllocError, Global};

/// Which image a crash is to leave.
#[derive(Clone, Copy)]
pub enum Pick {
    /// Each file as last synced.
    Oldest,
    /// What a read gave.
    Newest,
    /// What a read gave, with this byte in each place where a crash may leave anything: where the
    /// file was written since its last sync, and past its length at that sync.
    Torn(u8),
}

/// One image of the file after these calls on a file that held `start`.
pub fn image(
    alloc: Global,
    start: &Start,
    log: &[Call],
    written: &[u8],
    file: VolFile,
    pick: Pick,
) -> Result<Start, AllocError>
    requires pool { AllInPool (length written.now) log.now }
    requires ends { AllEndWithin log.now }
    requires octets { AreBytes written.now }
    ensures { IfOk result (λ s. (d : Disk) → AllFit (effects written.now log.now) d
        → file_of file d ≡ settled (sparse_bytes start.now)
        → IsPicked pick (file_of file (replay (effects written.now log.now) d)) (sparse_bytes s)) }
{
    match pick {
        Pick::Oldest => held_after(alloc, start, &log[..synced_by(log, file)], written, file),
        Pick::Newest => held_after(alloc, start, log, written, file),
        Pick::Torn(fill) => torn_at(alloc, start, log, written, file, fill),
    }
}

// What the file holds after these calls.
fn held_after(
    alloc: Global,
    start: &Start,
    log: &[Call],
    written: &[u8],
    file: VolFile,
) -> Result<Start, AllocError>
    requires pool { AllInPool (length written.now) log.now }
    requires ends { AllEndWithin log.now }
    requires octets { AreBytes written.now }
    ensures { IfOk result (λ s. (d : Disk) → AllFit (effects written.now log.now) d
        → (file_of file d).now ≡ sparse_bytes start.now
        → sparse_bytes s ≡ (file_of file (replay (effects written.now log.now) d)).now) }
{
    let len = len_of(log, file, start.len());
    let mut pieces = start.copy_pieces(alloc)?;
    add_written(alloc, &mut pieces, log, written, file)?;
    Ok(Start::crop(len, pieces))
}

// The same, torn.
fn torn_at(
    alloc: Global,
    start: &Start,
    log: &[Call],
    written: &[u8],
    file: VolFile,
    fill: u8,
) -> Result<Start, AllocError>
    requires pool { AllInPool (length written.now) log.now }
    requires ends { AllEndWithin log.now }
    requires octets { AreBytes written.now }
    ensures { IfOk result (λ s. (d : Disk) → AllFit (effects written.now log.now) d
        → file_of file d ≡ settled (sparse_bytes start.now)
        → IsTorn fill (file_of file (replay (effects written.now log.now) d)) (sparse_bytes s)) }
{
    let synced = &log[..synced_by(log, file)];
    let from = len_of(synced, file, start.len());
    let fills = fills_since(alloc, log, file, fill)?;
    let mut torn = held_after(alloc, start, log, written, file)?;
    torn.tear(alloc, fills, from, fill)?;
    Ok(torn)
}

// The byte over each range that was written to the file since its last sync.
fn fills_since(
    alloc: Global,
    log: &[Call],
    file: VolFile,
    fill: u8,
) -> Result<Vec<Piece>, AllocError>
    ensures { IfOk result (λ v. (written : List ℕ) (d : Disk) → AllInPool (length written) log.now
        → AllFit (effects written log.now) d → (file_of file d).touched ≡ []
        → pieces_of v.items ≡ fills fill (file_of file
        (replay (effects written log.now) d)).touched) }
{
    let mut pieces = Vec::new(alloc);
    for call in log {
        if call.ask.syncs(file) {
            pieces.clear();
        } else if let Some(at) = call.ask.place_in(file) {
            let bytes = fill_bytes(alloc, fill, call.count)?;
            pieces.push(Piece { at, bytes })?;
        }
    }
    Ok(pieces)
}
