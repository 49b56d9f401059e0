//! Which words a command line has.

ghost use Rattle.std.specs.Prelude.{None};

use crate::same::same;
use outside_io::Word;
use program_ends::{Arguments, words_from};
use std::env::FillError;
use std::process::Abort;
use std::thread::Threads;

/// Arguments in memory. What they are is for the run of the test to compare.
#[derive(Drop)]
struct ListedArguments {
    listed: Vec<Word>,
}

impl Arguments for ListedArguments {
    ghost texts = { λ _. None };

    fn text_at(&self, number: usize, buf: &mut [u8]) -> Result<usize, FillError> {
        let Some(word) = self.listed.get(number) else {
            return Err(FillError::NotPresent);
        };
        let text = word.as_slice();
        if text.len() > buf.len() {
            return Err(FillError::TooLong);
        }
        buf[..text.len()].copy_from_slice(text);
        Ok(text.len())
    }
}

/// These texts as arguments.
fn arguments_of(
    rt: &(impl Abort + AllocGlobal + Threads + Sync),
    texts: &[&[u8]],
) -> ListedArguments {
    let mut listed = Vec::new(rt.alloc());
    for text in texts {
        let text = Vec::from_slice(rt.alloc(), text).expect(rt, "memory");
        listed.push(Word::new(text)).expect(rt, "memory");
    }
    ListedArguments { listed }
}

/// These words have these bytes.
fn words_are(rt: &impl Abort, words: &[Word], texts: &[&[u8]]) {
    same(rt, "number of words", words.len(), texts.len());
    for (word, text) in words.iter().zip(texts) {
        same(rt, texts.len(), word.as_slice(), *text);
    }
}

/// The words of a command line of these texts are those behind the second.
fn words_are_behind_two(rt: &(impl Abort + AllocGlobal + Threads + Sync), texts: &[&[u8]]) {
    let words = words_from(rt.alloc(), &arguments_of(rt, texts), 2).expect(rt, "memory");
    words_are(rt, &words, texts.get(2..).unwrap_or(&[]));
}

#[test]
fn words_are_the_bytes_behind_name_and_path(rt: HostRuntime) {
    let long = [b'x'; 700];
    let texts = [
        b"lerc_cli".as_slice(),
        b"-",
        b"",
        &[0xff, 0xfe],
        &long,
        b"decode",
    ];
    for count in 0..texts.len() {
        words_are_behind_two(&rt, &texts[..count]);
    }
}
