//! One row after the other. A run that ends for want of memory ends its test with that error, so
//! that a test with ample memory has every answer.

use crate::runs::{all_recover, gives, refuses, volume};
use outside_io::MemVolume;
use std::alloc::{AllocError, Global};
use worked_examples::{BLOB, FOUR, GRID, NO_PIXEL, STEPS, TENS};

/// The header of a bundle of 131,206 bytes that has one record.
const HEADER: [u8; 64] =
    *b"\x03\x00\x00\x00\x00\x40\x00\x00\x42\x00\x00\x00\x05\x00\x00\x00\x00\x00\x00\x00\x00\x00\
    \x00\x00\x86\x00\x02\x00\x00\x00\x00\x00\x28\x00\x00\x00\x00\x00\x00\x00\x14\x00\x02\x00\x03\
    \x00\x00\x00\x10\x00\x00\x00\x00\x40\x00\x00\x05\x00\x00\x00\x00\x00\x02\x00";

/// The entry of the last slot of that bundle, and the number in front of its record.
const ENTRY: [u8; 12] = *b"\x44\x00\x02\x00\x00\x42\x00\x00\x42\x00\x00\x00";

/// A volume without a bundle, or one whose bundle has one tile, in the last slot.
fn volume_with(alloc: Global, has_tile: bool) -> Result<MemVolume, AllocError> {
    if !has_tile {
        return volume(alloc, &[]);
    }
    let mut entries = Vec::new(alloc);
    entries.resize(131064, 0)?;
    let bundle = [HEADER.as_slice(), &entries, &ENTRY, &BLOB].concat(alloc)?;
    volume(alloc, &bundle)
}

/// Whether a bundle has a tile, and what these words give over it and this input.
const LOOKS: &[(bool, &[&str], &[u8], &[u8])] = &[
    (false, &["decode"], &BLOB, &GRID),
    (false, &["encode", "3", "0"], &GRID, &BLOB),
    (false, &["encode", "3", "1"], &TENS, &STEPS),
    (
        false,
        &["sample", "7", "2"],
        b"",
        b"tiles 2\nbytes 6545\nworst 1\nsum 514240657\n",
    ),
    (true, &["list"], b"", b"127 127 131140 66\n"),
    (true, &["check"], b"", b"tiles 1\nbytes 66\nbad 0\n"),
    (true, &["get", "127", "127"], b"", &GRID),
    (true, &["get", "127", "127", "raw"], b"", &BLOB),
];

#[test]
fn rows_that_change_nothing(rt: HostRuntime) -> Result<(), AllocError> {
    let alloc = rt.alloc();
    for (has_tile, words, input, output) in LOOKS {
        let mut vol = volume_with(alloc, *has_tile)?;
        if !gives(&rt, alloc, words, input, &mut vol, output)? {
            return Err(AllocError);
        }
    }
    Ok(())
}

/// Whether a bundle has a tile, and what these words give over it and these parts of an input.
const CHANGES: &[(bool, &[&str], &[&[u8]], &[u8])] = &[
    (
        false,
        &["put", "3", "0", "1"],
        &[b"T\x7f\x7f", &GRID],
        b"put 127 127 66\n",
    ),
    (
        true,
        &["put", "3", "1", "1"],
        &[b"T\x7f\x7f", &TENS],
        b"put 127 127 72\n",
    ),
    (
        false,
        &["build", "3", "0", "2"],
        &[b"T\0\0", &GRID, b"T\0\0", &NO_PIXEL],
        b"built 1 131206\n",
    ),
];

/// For each of these what other words give behind the run, and what others give before it.
const BEHIND: [(&[&str], &[u8], &[&str], &[u8]); 3] = [
    (&["get", "127", "127", "raw"], &BLOB, &["list"], b""),
    (
        &["get", "127", "127"],
        &FOUR,
        &["get", "127", "127", "raw"],
        &BLOB,
    ),
    (&["list"], b"0 0 131140 66\n", &["list"], b""),
];

#[test]
fn rows_that_change_a_bundle(rt: HostRuntime) -> Result<(), AllocError> {
    let alloc = rt.alloc();
    for ((has_tile, words, input, output), behind) in CHANGES.iter().zip(&BEHIND) {
        let (look, after, look_before, before) = behind;
        let mut vol = volume_with(alloc, *has_tile)?;
        let input = input.concat(alloc)?;
        if !gives(&rt, alloc, words, &input, &mut vol, output)? {
            all_recover(&rt, alloc, &vol, look_before, before)?;
            return Err(AllocError);
        }
        if !gives(&rt, alloc, look, b"", &mut vol, after)? {
            return Err(AllocError);
        }
    }
    Ok(())
}

/// A build where a bundle has a tile: it is refused, and the tile stands.
#[test]
fn a_second_build_is_refused(rt: HostRuntime) -> Result<(), AllocError> {
    let alloc = rt.alloc();
    let mut vol = volume_with(alloc, true)?;
    let words = ["build", "3", "0", "2"];
    let input = [b"T\0\0".as_slice(), &GRID, b"T\0\0", &NO_PIXEL].concat(alloc)?;
    let line = b"store: NotEmpty 131206\n";
    let is_refused = refuses(&rt, alloc, &words, &input, &mut vol, line)?;
    all_recover(&rt, alloc, &vol, &["list"], b"127 127 131140 66\n")?;
    if is_refused { Ok(()) } else { Err(AllocError) }
}
