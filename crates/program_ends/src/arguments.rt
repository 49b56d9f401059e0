//! The texts of a command line.

ghost use Rattle.std.specs.Prelude.{◌≡◌, ◌≤◌, ℕ, List, Option, Some, None, IfOk, IfSome, length, drop, slice_get};
ghost use Rattle.program_ends.specs.Arguments.{GivesText};

use outside_io::Word;
use std::alloc::{AllocError, Global};
use std::env::{Env, FillError};

/// What gives the texts of a command line. The first is the program's name.
pub trait Arguments {
    /// All the texts, each a list of bytes, where they are told.
    ghost texts: { Self → Option (List (List ℕ)) };

    /// Copies the text with this number, counted from 0, to the front of the buffer, and answers
    /// its length. It is `NotPresent` behind the last, and `TooLong` where the text is longer than
    /// the buffer.
    fn text_at(&self, number: usize, buf: &mut [u8]) -> Result<usize, FillError>
        ensures within { IfOk result (λ n. n ≤ length buf.new) }
        ensures text { GivesText (texts self.now) number result buf.new };
}

/// The arguments of the process. They are not told.
#[derive(Drop)]
pub struct ProcessArguments<'a, R: Env> {
    env: &'a R,
}

impl<'a, R: Env> ProcessArguments<'a, R> {
    /// The arguments that this environment has.
    pub fn new(env: &'a R) -> ProcessArguments<'a, R>
        ensures { ⟦<ProcessArguments<'a, R> as Arguments>⟧.texts result ≡ None }
    {
        ProcessArguments { env }
    }
}

impl<'a, R: Env> Arguments for ProcessArguments<'a, R> {
    ghost texts = { λ _. None };

    fn text_at(&self, number: usize, buf: &mut [u8]) -> Result<usize, FillError> {
        self.env.arg(number, buf)
    }
}

/// The text with this number as a word, where there is one. Want of memory is its only error.
pub fn word_at<A: Arguments>(
    alloc: Global,
    args: &A,
    number: usize,
) -> Result<Option<Word>, AllocError>
    ensures { IfOk result (λ word.
        IfSome (A.texts args.now) (λ texts. word ≡ slice_get texts number)) }
{
    let mut bytes = Vec::new(alloc);
    let mut room = 256usize;
    for _ in 0..usize::BITS {
        bytes.resize(room, 0)?;
        match args.text_at(number, bytes.as_mut_slice()) {
            Ok(n) => {
                bytes.truncate(n);
                return Ok(Some(Word::new(bytes)));
            }
            Err(FillError::NotPresent) => return Ok(None),
            Err(FillError::TooLong) => room = room.saturating_add(room),
        }
    }
    Err(AllocError)
}

/// The words of a command line: the texts from the one with this number on, counted from 0. Want
/// of memory is its only error.
pub fn words_from<A: Arguments>(
    alloc: Global,
    args: &A,
    first: usize,
) -> Result<Vec<Word>, AllocError>
    ensures { IfOk result (λ words.
        IfSome (A.texts args.now) (λ texts. words.items ≡ drop first texts)) }
{
    let mut words = Vec::new(alloc);
    for number in first..usize::MAX {
        match word_at(alloc, args, number)? {
            Some(word) => words.push(word)?,
            None => return Ok(words),
        }
    }
    Err(AllocError)
}
