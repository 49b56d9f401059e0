//! A row: what is called, what it is given, and what has to come out.

ghost use Rattle.std.specs.Prelude.{◌<◌, ◌≤◌, ◌↔◌, IsOk, OnOk, IfOk, vec_len};

use crate::bytes::size_of_text;
use crate::stop::CaseStop;
use std::alloc::Global;
use std::str::FromStr;

/// What is called, what it is given, and what has to come out, each word as the bytes that it
/// stands for.
#[derive(Drop)]
pub struct Row {
    /// Of which group of calls it is: what stands before the dot.
    pub group: Vec<u8>,
    /// Which of these: what stands behind the dot.
    pub call: Vec<u8>,
    /// What is given.
    pub given: Vec<Vec<u8>>,
    /// What has to come out.
    pub wanted: Vec<Vec<u8>>,
}

impl Row {
    /// The bytes of the word with this number, counted from 0. `BadRow` where there is none.
    pub fn bytes(&self, at: usize) -> Result<&[u8], CaseStop>
        ensures { IsOk result ↔ (at < vec_len self.now.given) }
    {
        match self.given.get(at) {
            Some(bytes) => Ok(bytes.as_slice()),
            None => Err(CaseStop::BadRow),
        }
    }

    /// The same as a text. `BadRow` where it is none.
    pub fn text(&self, at: usize) -> Result<&str, CaseStop>
        ensures { OnOk result (at < vec_len self.now.given) }
    {
        match str::from_utf8(self.bytes(at)?) {
            Ok(text) => Ok(text),
            Err(_) => Err(CaseStop::BadRow),
        }
    }

    /// The same as a number. `BadRow` where it is none of the type.
    pub fn number<T: FromStr>(&self, at: usize) -> Result<T, CaseStop>
    where
        T::Err: Drop,
        ensures { OnOk result (at < vec_len self.now.given) }
    {
        self.text(at)?.parse::<T>().map_err(|_| CaseStop::BadRow)
    }

    /// The same as numbers with commas between them; an empty word has none. `BadRow` where one is
    /// none of the type.
    pub fn numbers<T: FromStr + Drop>(&self, alloc: Global, at: usize) -> Result<Vec<T>, CaseStop>
    where
        T::Err: Drop,
        ensures { OnOk result (at < vec_len self.now.given) }
    {
        let mut list = Vec::new(alloc);
        let text = self.text(at)?;
        if text.is_empty() {
            return Ok(list);
        }
        for word in text.split(',') {
            list.push(word.parse::<T>().map_err(|_| CaseStop::BadRow)?)?;
        }
        Ok(list)
    }

    /// The same as a size of at most `most`.
    pub fn size(&self, at: usize, most: usize) -> Result<usize, CaseStop>
        ensures there { OnOk result (at < vec_len self.now.given) }
        ensures within { IfOk result (λ size. size ≤ most) }
    {
        let size = size_of_text(self.bytes(at)?)?;
        if size <= most {
            Ok(size)
        } else {
            Err(CaseStop::BadRow)
        }
    }
}
