//! What a journal says, and how it is made.

ghost use Rattle.std.specs.Prelude.{IfOk};
ghost use Rattle.side_journal.specs.Bodies.{IsWritten};

use case_rows::{CaseStop, Row, Told};
use outside_io::{Failed, MemVolume, Pick, VolFile, Volume};
use side_journal::{Body, Group, JournalState, arm, close_gate, open_gate, prepare, read_journal};
use std::alloc::Global;
use volume_rows::{Failing, Volumes, image, volume};

/// The images of a moment that are tried: as last synced, as read, torn with 0 and with 255.
const PICKS: [Pick; 4] = [Pick::Oldest, Pick::Newest, Pick::Torn(0), Pick::Torn(255)];

/// What the journal of a volume says.
fn state_of(vol: &mut MemVolume) -> Result<JournalState, CaseStop> {
    read_journal(vol).map_err(|_| CaseStop::BadRow)
}

/// The slots, the offsets and the sizes of new entries.
fn tell_group(alloc: Global, group: &Group, told: &mut Told) -> Result<(), CaseStop> {
    let mut slots = Vec::new(alloc);
    let mut offsets = Vec::new(alloc);
    let mut sizes = Vec::new(alloc);
    for i in 0..group.len() {
        let (slot, entry) = group.at(i);
        slots.push(slot.number())?;
        offsets.push(entry.offset)?;
        sizes.push(entry.size)?;
    }
    told.list(&slots)?;
    told.list(&offsets)?;
    told.list(&sizes)
}

/// What an open journal is about.
fn tell_body(alloc: Global, body: &Body, told: &mut Told) -> Result<(), CaseStop> {
    match body {
        Body::Build => told.word("Build"),
        Body::Tile {
            slot,
            entry,
            length,
            header,
        } => {
            told.word("Tile")?;
            told.list(&[
                u64::from(slot.number()),
                entry.offset,
                u64::from(entry.size),
                *length,
            ])?;
            told.bytes(&header.bytes())
        }
        Body::Group {
            group,
            length,
            header,
        } => {
            told.word("Group")?;
            tell_group(alloc, group, told)?;
            told.word(*length)?;
            told.bytes(&header.bytes())
        }
    }
}

/// `read NAME`: what the journal says.
fn read(alloc: Global, volumes: &mut Volumes, row: &Row, told: &mut Told) -> Result<(), CaseStop> {
    match state_of(volumes.volume(row.bytes(0)?)?)? {
        JournalState::Closed => told.word("Closed"),
        JournalState::Open(body) => tell_body(alloc, &body, told),
        JournalState::Bad { place, found } => {
            told.word("Bad")?;
            told.word(place)?;
            told.word(found)
        }
    }
}

/// What an open journal of these bytes is about, which is of the second form.
fn written(alloc: Global, journal: &[u8]) -> Result<Body, CaseStop>
    ensures { IfOk result (λ body. IsWritten body) }
{
    let calls = Vec::new(alloc);
    let mut vol = volume(alloc, 0, &[], journal, Failing { calls, stop: None })?;
    match read_journal(&mut vol) {
        Ok(JournalState::Open(Body::Build)) => Ok(Body::Build),
        Ok(
            JournalState::Open(
                Body::Group {
                    group,
                    length,
                    header,
                },
            ),
        ) => Ok(Body::Group {
            group,
            length,
            header,
        }),
        _ => Err(CaseStop::BadRow),
    }
}

/// Arms the journal with the body; then, by the number of steps, opens it and closes it again.
fn make<V: Volume>(vol: &mut V, body: &Body, steps: u64) -> Result<(), Failed>
    requires { IsWritten body.now }
{
    vol.sync(VolFile::Journal)?;
    match read_journal(vol)? {
        JournalState::Closed => {}
        _ => return Err(Failed),
    }
    prepare(vol)?;
    arm(vol, body)?;
    if steps == 0 {
        return Ok(());
    }
    open_gate(vol)?;
    if steps == 1 {
        return Ok(());
    }
    close_gate(vol)
}

/// `make NAME BODY STEPS`: arms the journal with the body of an open journal, and opens and closes
/// it by the number of steps.
fn make_journal(
    alloc: Global,
    volumes: &mut Volumes,
    row: &Row,
    told: &mut Told,
) -> Result<(), CaseStop> {
    let body = written(alloc, row.bytes(1)?)?;
    let steps = row.number(2)?;
    told.fact(make(volumes.volume(row.bytes(0)?)?, &body, steps))
}

/// How many of the images of a moment have a journal that is not closed.
fn count_open(alloc: Global, vol: &MemVolume, moment: u64) -> Result<u32, CaseStop> {
    let mut count = 0u32;
    for pick in PICKS {
        let mut crashed = image(alloc, vol, moment, pick)?;
        if !matches!(&state_of(&mut crashed)?, JournalState::Closed) {
            count = count.saturating_add(1);
        }
    }
    Ok(count)
}

/// `open NAME FROM END`: that count of each moment from one to another.
fn open(alloc: Global, volumes: &mut Volumes, row: &Row, told: &mut Told) -> Result<(), CaseStop> {
    let (from, end): (u64, u64) = (row.number(1)?, row.number(2)?);
    let vol = volumes.volume(row.bytes(0)?)?;
    let mut counts = Vec::new(alloc);
    for moment in from..=end {
        counts.push(count_open(alloc, vol, moment)?)?;
    }
    told.list(&counts)
}

pub(crate) fn call(
    alloc: Global,
    volumes: &mut Volumes,
    row: &Row,
    told: &mut Told,
) -> Result<(), CaseStop> {
    match row.call.as_slice() {
        b"read" => read(alloc, volumes, row, told),
        b"make" => make_journal(alloc, volumes, row, told),
        b"open" => open(alloc, volumes, row, told),
        _ => Err(CaseStop::BadRow),
    }
}
