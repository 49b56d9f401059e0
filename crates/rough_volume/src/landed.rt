//! Images of which each write and each cut since a moment has landed or not.

ghost use Rattle.std.specs.Prelude.{◌≤◌};
ghost use Rattle.rough_volume.specs.State.{rough_history};

use crate::RoughVolume;
use outside_io::{MemVolume, Pick, VolFile, Volume};
use std::alloc::{AllocError, Global};

/// Which steps on one file have landed.
#[derive(Clone, Copy, Debug, PartialEq, Eq)]
pub struct Landed {
    /// The moment from which on: that of the file's last sync, or the start.
    pub since: u64,
    /// Bit i says whether the call at the moment `since` + i has; it may have done nothing to it.
    pub steps: u64,
    /// What stands in the places of those that have not, where it is not what was synced.
    pub fill: Option<u8>,
}

/// The bytes of a file at a moment, as a read gives them.
fn bytes_at(
    alloc: Global,
    vol: &RoughVolume,
    file: VolFile,
    moment: u64,
) -> Result<Vec<u8>, AllocError>
    requires { moment ≤ (rough_history vol.now).moment }
{
    let mut read = vol.crash(alloc, moment, Pick::Newest)?;
    whole(alloc, &mut read, file)
}

/// The bytes of a file of a volume that fails at no call.
fn whole(alloc: Global, vol: &mut MemVolume, file: VolFile) -> Result<Vec<u8>, AllocError> {
    let len = vol.len(file).unwrap_or(0) as usize;
    let mut bytes = vec![in alloc; 0u8; len]?;
    let count = vol.read(file, 0, bytes.as_mut_slice()).unwrap_or(0);
    bytes.truncate(count);
    Ok(bytes)
}

/// Lays over the image what a step has changed, or in its places the other byte.
fn lay(
    image: &mut Vec<u8>,
    before: &[u8],
    after: &[u8],
    other: Option<u8>,
) -> Result<(), AllocError> {
    for at in 0..after.len() {
        let is_same = before.get(at) == after.get(at);
        if !is_same && at < image.len() {
            image[at] = other.unwrap_or(after[at]);
        } else if at == image.len() {
            image.push(other.unwrap_or(after[at]))?;
        }
    }
    Ok(())
}

/// One image of one file of now: what it held at the moment from which on, with the steps that have
/// landed, each over those before it. Where a step has not, there stands what stood there before,
/// or the byte that is named. The length is that behind the last step that has landed. Want of
/// memory is the only error.
pub fn landed_bytes(
    alloc: Global,
    vol: &RoughVolume,
    file: VolFile,
    which: Landed,
) -> Result<Vec<u8>, AllocError> {
    let end = vol.moment();
    let since = which.since.min(end);
    let mut image = bytes_at(alloc, vol, file, since)?;
    let mut before = bytes_at(alloc, vol, file, since)?;
    for moment in since..end {
        let after = bytes_at(alloc, vol, file, moment + 1)?;
        let has_landed = moment - since < 64 && which.steps >> (moment - since) & 1 == 1;
        if has_landed {
            lay(&mut image, &before, &after, None)?;
            image.truncate(after.len());
        } else if which.fill.is_some() {
            let len = image.len();
            lay(&mut image, &before, &after, which.fill)?;
            image.truncate(len);
        }
        before = after;
    }
    Ok(image)
}
