//! What came out of a call.

ghost use Rattle.std.specs.Prelude.{◌≡◌, ◌+◌, OnOk, vec_len};

use crate::rows::Row;
use crate::stop::CaseStop;
use std::alloc::Global;
use std::fmt::{Debug, Display, Write};

/// What came out of a call, in the order in which it is told.
#[derive(Drop)]
pub struct Told {
    alloc: Global,
    /// A word for each that was told.
    pub words: Vec<Vec<u8>>,
}

impl Told {
    /// Nothing came out.
    pub fn new(alloc: Global) -> Self {
        Told {
            alloc,
            words: Vec::new(alloc),
        }
    }

    /// These bytes came out.
    pub fn bytes(&mut self, bytes: &[u8]) -> Result<(), CaseStop>
        ensures { OnOk result (vec_len self.new.words ≡ vec_len self.old.words + 1) }
    {
        self.words.push(bytes.to_vec(self.alloc)?)?;
        Ok(())
    }

    /// This came out, as it is printed.
    pub fn word(&mut self, word: impl Display + Drop) -> Result<(), CaseStop>
        ensures { OnOk result (vec_len self.new.words ≡ vec_len self.old.words + 1) }
    {
        let text = word.to_string(self.alloc)?;
        self.bytes(text.as_bytes())
    }

    /// This came out, as it is printed for those who look for faults.
    pub fn fact(&mut self, fact: impl Debug + Drop) -> Result<(), CaseStop>
        ensures { OnOk result (vec_len self.new.words ≡ vec_len self.old.words + 1) }
    {
        let text = format!(in self.alloc; "{fact:?}")?;
        self.bytes(text.as_bytes())
    }

    /// These came out: one word, with commas between them.
    pub fn list<T: Display>(&mut self, list: &[T]) -> Result<(), CaseStop>
        ensures { OnOk result (vec_len self.new.words ≡ vec_len self.old.words + 1) }
    {
        let mut text = String::new(self.alloc);
        for (at, item) in list.iter().enumerate() {
            if at > 0 {
                text.push(',')?;
            }
            write!(text, "{item}")?;
        }
        self.bytes(text.as_bytes())
    }

    /// Whether just what has to came out.
    pub fn is_wanted(&self, row: &Row) -> bool {
        self.words == row.wanted
    }

    /// The words.
    pub fn into_words(self) -> Vec<Vec<u8>> {
        self.words
    }
}
