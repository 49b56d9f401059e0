//! What crashes leave, and what comes of works on it, which themselves may crash.

use crate::cut::works::perform;
use crate::store::held::{Files, PICKS, content_at, content_of_all, files_of};
use crate::words::outcomes::{Outcomes, join_texts};
use crate::words::work_words::named_work;
use case_rows::{CaseStop, Row, Told};
use outside_io::{MemVolume, Pick, Volume};
use std::alloc::Global;
use std::thread::Threads;
use volume_rows::{Volumes, image};

/// What came of a work on these files.
#[derive(Drop)]
struct Known {
    files: Files,
    text: Vec<u8>,
}

/// A work on images of some moments of a volume, and what came out so far.
#[derive(Drop)]
struct Crashing {
    name: Vec<u8>,
    from: u64,
    end: u64,
    work: Row,
    known: Vec<Known>,
    outcomes: Outcomes,
}

impl Crashing {
    /// What came of these files before. The same files come to the same, so a work is done once on
    /// them.
    fn find(&self, files: &Files) -> Option<&[u8]> {
        for known in &self.known {
            if known.files.journal == files.journal && known.files.bundle == files.bundle {
                return Some(known.text.as_slice());
            }
        }
        None
    }
}

/// The one that a row names: `NAME FROM END WORK ..`, of which a moment that is empty is now.
fn crashing_of(alloc: Global, volumes: &mut Volumes, row: &Row) -> Result<Crashing, CaseStop> {
    let now = volumes.volume(row.bytes(0)?)?.moment();
    let (from, end) = (volumes.moment(row, 1)?, volumes.moment(row, 2)?);
    Ok(Crashing {
        name: row.bytes(0)?.to_vec(alloc)?,
        from: from.unwrap_or(now),
        end: end.unwrap_or(now),
        work: named_work(alloc, row, 3)?,
        known: Vec::new(alloc),
        outcomes: Outcomes::new(alloc),
    })
}

/// The answer of a work, and what the images of all its moments hold, each once: last what those of
/// its end do. A stop at a call leaves what a crash before that call does, since a call that fails
/// changes nothing.
fn over_moments(alloc: Global, vol: &MemVolume, answer: &[u8]) -> Result<Vec<u8>, CaseStop> {
    let mut outcomes = Outcomes::new(alloc);
    for moment in 0..vol.moment() {
        for pick in PICKS {
            outcomes.add(content_at(alloc, vol, moment, pick)?)?;
        }
    }
    outcomes.end(content_of_all(alloc, vol)?)?;
    outcomes.text(alloc, answer)
}

/// Whether the volume has these files. A work that leaves the files as they were has no images of
/// moments of its own.
fn is_as_before(alloc: Global, vol: &MemVolume, files: &Files) -> Result<bool, CaseStop> {
    let now = files_of(alloc, vol)?;
    Ok(now.journal == files.journal && now.bundle == files.bundle)
}

/// What comes of the work on an image that has not been seen.
fn new_text<R: Threads + Sync>(
    rt: &R,
    alloc: Global,
    volumes: &mut Volumes,
    work: &Row,
    crashed: MemVolume,
    files: &Files,
) -> Result<Vec<u8>, CaseStop> {
    let (vol, answer) = perform(rt, alloc, volumes, crashed, work)?;
    if is_as_before(alloc, &vol, files)? {
        join_texts(alloc, &answer, &content_of_all(alloc, &vol)?)
    } else {
        over_moments(alloc, &vol, &answer)
    }
}

/// What comes of the work on an image.
fn text_over<R: Threads + Sync>(
    rt: &R,
    alloc: Global,
    volumes: &mut Volumes,
    crashing: &mut Crashing,
    crashed: MemVolume,
) -> Result<Vec<u8>, CaseStop> {
    let files = files_of(alloc, &crashed)?;
    if let Some(text) = crashing.find(&files) {
        return Ok(text.to_vec(alloc)?);
    }
    let text = new_text(rt, alloc, volumes, &crashing.work, crashed, &files)?;
    let copy = text.to_vec(alloc)?;
    crashing.known.push(Known { files, text: copy })?;
    Ok(text)
}

/// What comes of the work on one image of each of the moments.
fn add_pick<R: Threads + Sync>(
    rt: &R,
    alloc: Global,
    volumes: &mut Volumes,
    crashing: &mut Crashing,
    pick: Pick,
) -> Result<(), CaseStop> {
    for moment in crashing.from..=crashing.end {
        let crashed = image(alloc, volumes.volume(&crashing.name)?, moment, pick)?;
        let text = text_over(rt, alloc, volumes, crashing, crashed)?;
        crashing.outcomes.add(text)?;
    }
    Ok(())
}

/// `phase NAME FROM END WORK ..` and `recoveries NAME FROM END WORK ..`: what comes of the work on
/// each image of these moments, and what the images of its own moments hold: `phase` tells it for
/// each of the four images apart, one word where the moments agree, and `recoveries` once.
pub(crate) fn crashes<R: Threads + Sync>(
    rt: &R,
    alloc: Global,
    volumes: &mut Volumes,
    row: &Row,
    told: &mut Told,
) -> Result<(), CaseStop> {
    let is_phase = row.call.as_slice() == b"phase".as_slice();
    let mut crashing = crashing_of(alloc, volumes, row)?;
    for pick in PICKS {
        add_pick(rt, alloc, volumes, &mut crashing, pick)?;
        if is_phase {
            crashing.outcomes.tell(told)?;
            crashing.outcomes = Outcomes::new(alloc);
        }
    }
    crashing.outcomes.tell(told)
}
