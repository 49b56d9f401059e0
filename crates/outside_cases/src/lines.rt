//! Bytes, words, lines and marks.

ghost use Rattle.std.specs.Prelude.{◌<◌, ◌≤◌, length};

use case_rows::{CaseStop, Row, Told};
use outside_io::{Bytes, Line, Marks, MemSink, Word, give_line};
use std::alloc::Global;

/// `bytes TEXT`
pub(crate) fn bytes(alloc: Global, row: &Row, told: &mut Told) -> Result<(), CaseStop> {
    let copy = Bytes::of(alloc, row.bytes(0)?)?;
    told.bytes(copy.as_slice())?;
    told.word(copy.len())?;
    told.word(copy.is_empty())?;
    let items = copy.into_vec();
    told.bytes(&items)?;
    told.bytes(Bytes::from_vec(items).as_slice())
}

/// The word of these bytes, made of a text where they are one.
fn made_of(alloc: Global, row: &Row) -> Result<Word, CaseStop> {
    match row.text(0) {
        Ok(text) => Ok(Word::of(alloc, text)?),
        Err(_) => Ok(Word::new(row.bytes(0)?.to_vec(alloc)?)),
    }
}

/// `word TEXT`
pub(crate) fn word(alloc: Global, row: &Row, told: &mut Told) -> Result<(), CaseStop> {
    let word = made_of(alloc, row)?;
    told.bytes(word.as_slice())?;
    told.fact(word.number())
}

/// The longest text of a line that a row gives.
const MOST: usize = 50;

/// The line of a text, three numbers and another text.
fn line_of(front: &[u8], numbers: &[u64], back: &[u8]) -> Result<Line, CaseStop> {
    let [first, second, third] = numbers else {
        return Err(CaseStop::BadRow);
    };
    if front.len() > MOST || back.len() > MOST {
        return Err(CaseStop::BadRow);
    }
    let mut line = Line::new();
    line.text(front);
    line.number(*first);
    line.number(*second);
    line.number(*third);
    line.text(back);
    Ok(line)
}

/// `line TEXT NUMBERS TEXT ROOM`
pub(crate) fn line(alloc: Global, row: &Row, told: &mut Told) -> Result<(), CaseStop> {
    let numbers: Vec<u64> = row.numbers(alloc, 1)?;
    let line = line_of(row.bytes(0)?, &numbers, row.bytes(2)?)?;
    told.bytes(line.as_slice())?;
    let mut sink = MemSink::new(alloc, 2, Bytes::of(alloc, b"")?, row.size(3, 1000)?)?;
    give_line(&mut sink, &line);
    told.bytes(sink.held())
}

/// `marks NUMBERS`
pub(crate) fn marks(alloc: Global, row: &Row, told: &mut Told) -> Result<(), CaseStop> {
    let numbers: Vec<u64> = row.numbers(alloc, 0)?;
    let mut marks = Marks::new(alloc);
    told.word(marks.is_empty())?;
    for number in &numbers {
        marks.reserve(1)?;
        marks.add(*number);
    }
    told.word(marks.is_empty())?;
    for at in 0..marks.len() {
        told.word(marks.at(at))?;
    }
    Ok(())
}
