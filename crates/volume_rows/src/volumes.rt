//! Volumes by their names, and the calls of rows on them.

use crate::files::{Failing, copy, image, lay, needed, part, shorten, volume};
use crate::words::{file_of, number_or_none, pick_of};
use case_rows::{Calls, CaseStop, Row, Told};
use outside_io::{MemVolume, Pick, Volume};
use std::alloc::Global;
use std::collections::BTreeMap;

/// The most bytes that a row reads.
const MOST: usize = 1_048_576;

/// Volumes in memory by their names.
///
/// The calls: `new NAME LEN FRONT JOURNAL FAILING STOP` makes a bundle of `LEN` bytes that begins
/// with `FRONT` and has zeros behind, beside the journal, where the calls with these numbers fail,
/// and all from `STOP` on, which is empty for none. `copy NAME OTHER FAILING STOP` makes another
/// one of the same files. `crash NAME MOMENT PICK OTHER` gives an image of a moment another name;
/// the moment is a number, a name of one, or empty for now. `mark NAME MOMENT` gives the moment of
/// now a name, `name MOMENT BACK OTHER` one so many before another one, and `is NAME MOMENT` tells
/// whether it is now. `read NAME FILE AT COUNT` and `length NAME FILE` tell what a read gives,
/// without a call of the volume. `write NAME FILE AT BYTES` and `cut NAME FILE LEN` change a file
/// and sync it. `moment NAME` tells the clock.
#[derive(Drop)]
pub struct Volumes {
    alloc: Global,
    named: BTreeMap<Vec<u8>, MemVolume>,
    moments: BTreeMap<Vec<u8>, u64>,
}

impl Volumes {
    /// No volumes.
    pub fn new(alloc: Global) -> Volumes {
        Volumes {
            alloc,
            named: BTreeMap::new(alloc),
            moments: BTreeMap::new(alloc),
        }
    }

    /// The volume of that name. `BadRow` where there is none.
    pub fn volume(&mut self, name: &[u8]) -> Result<&mut MemVolume, CaseStop> {
        match self.named.get_mut(name) {
            Some(vol) => Ok(vol),
            None => Err(CaseStop::BadRow),
        }
    }

    /// Takes the volume of that name out, until it is kept again. `BadRow` where there is none.
    pub fn take(&mut self, name: &[u8]) -> Result<MemVolume, CaseStop> {
        match self.named.remove(name) {
            Some(vol) => Ok(vol),
            None => Err(CaseStop::BadRow),
        }
    }

    /// Gives the volume that name, also where another had it.
    pub fn keep(&mut self, name: &[u8], vol: MemVolume) -> Result<(), CaseStop> {
        let name = name.to_vec(self.alloc)?;
        self.named.insert(name, vol)?;
        Ok(())
    }

    /// Gives a moment a name, also where another had it.
    pub fn keep_moment(&mut self, name: &[u8], moment: u64) -> Result<(), CaseStop> {
        let name = name.to_vec(self.alloc)?;
        self.moments.insert(name, moment)?;
        Ok(())
    }

    /// The moment that a word of a row names, or its number; none where the word is empty.
    pub fn moment(&self, row: &Row, at: usize) -> Result<Option<u64>, CaseStop> {
        match self.moments.get(row.bytes(at)?) {
            Some(moment) => Ok(Some(*moment)),
            None => number_or_none(row, at),
        }
    }

    /// Gives the moment of now a name.
    fn mark(&mut self, row: &Row) -> Result<(), CaseStop> {
        let moment = self.volume(row.bytes(0)?)?.moment();
        self.keep_moment(row.bytes(1)?, moment)
    }

    /// The numbers of a word, or that of the moment that it names.
    fn numbers(&self, row: &Row, at: usize) -> Result<Vec<u64>, CaseStop> {
        match self.moments.get(row.bytes(at)?) {
            Some(moment) => Ok(Vec::from_slice(self.alloc, &[*moment])?),
            None => row.numbers(self.alloc, at),
        }
    }

    /// Which calls fail: the numbers of one word, and all from the next word's number on.
    fn failing(&self, row: &Row, at: usize, stop: usize) -> Result<Failing, CaseStop> {
        Ok(Failing {
            calls: self.numbers(row, at)?,
            stop: self.moment(row, stop)?,
        })
    }

    /// Gives the moment so many before another one a name.
    fn name(&mut self, row: &Row) -> Result<(), CaseStop> {
        let moment = self.moment(row, 0)?.unwrap_or(0);
        let back: u64 = row.number(1)?;
        self.keep_moment(row.bytes(2)?, moment.saturating_sub(back))
    }

    /// Whether it is that moment.
    fn is_now(&mut self, row: &Row, told: &mut Told) -> Result<(), CaseStop> {
        let moment = self.moment(row, 1)?;
        told.word(moment == Some(self.volume(row.bytes(0)?)?.moment()))
    }

    /// A bundle of a length that begins so, and a journal.
    fn make(&mut self, row: &Row) -> Result<(), CaseStop> {
        let failing = self.failing(row, 4, 5)?;
        let len = row.number(1)?;
        let vol = volume(self.alloc, len, row.bytes(2)?, row.bytes(3)?, failing)?;
        self.keep(row.bytes(0)?, vol)
    }

    /// Another volume of the same files.
    fn copy(&mut self, row: &Row) -> Result<(), CaseStop> {
        let failing = self.failing(row, 2, 3)?;
        let vol = copy(self.alloc, self.volume(row.bytes(0)?)?, failing)?;
        self.keep(row.bytes(1)?, vol)
    }

    /// An image of a moment.
    fn crash(&mut self, row: &Row) -> Result<(), CaseStop> {
        let (moment, pick) = (self.moment(row, 1)?, pick_of(row, 2)?);
        let alloc = self.alloc;
        let vol = self.volume(row.bytes(0)?)?;
        let crashed = image(alloc, vol, moment.unwrap_or(vol.moment()), pick)?;
        self.keep(row.bytes(3)?, crashed)
    }

    /// A volume that reads as the one of that name, so that a look at it is no call of that one.
    fn look(&mut self, name: &[u8]) -> Result<MemVolume, CaseStop> {
        let alloc = self.alloc;
        let vol = self.volume(name)?;
        image(alloc, vol, vol.moment(), Pick::Newest)
    }

    /// What a read gives.
    fn read(&mut self, row: &Row, told: &mut Told) -> Result<(), CaseStop> {
        let (at, count) = (row.number(2)?, row.size(3, MOST)?);
        let mut vol = self.look(row.bytes(0)?)?;
        told.bytes(&part(self.alloc, &mut vol, file_of(row, 1)?, at, count)?)
    }

    /// The length of a file.
    fn length(&mut self, row: &Row, told: &mut Told) -> Result<(), CaseStop> {
        let mut vol = self.look(row.bytes(0)?)?;
        told.word(needed(vol.len(file_of(row, 1)?))?)
    }

    /// Lays bytes over a file.
    fn write(&mut self, row: &Row) -> Result<(), CaseStop> {
        let at = row.number(2)?;
        lay(
            self.volume(row.bytes(0)?)?,
            file_of(row, 1)?,
            at,
            row.bytes(3)?,
        )
    }

    /// Shortens a file.
    fn cut(&mut self, row: &Row) -> Result<(), CaseStop> {
        let len = row.number(2)?;
        shorten(self.volume(row.bytes(0)?)?, file_of(row, 1)?, len)
    }
}

impl Calls for Volumes {
    fn call(&mut self, row: &Row, told: &mut Told) -> Result<(), CaseStop> {
        match row.call.as_slice() {
            b"new" => self.make(row),
            b"copy" => self.copy(row),
            b"crash" => self.crash(row),
            b"read" => self.read(row, told),
            b"length" => self.length(row, told),
            b"mark" => self.mark(row),
            b"name" => self.name(row),
            b"is" => self.is_now(row, told),
            b"write" => self.write(row),
            b"cut" => self.cut(row),
            b"moment" => told.word(self.volume(row.bytes(0)?)?.moment()),
            _ => Err(CaseStop::BadRow),
        }
    }
}
