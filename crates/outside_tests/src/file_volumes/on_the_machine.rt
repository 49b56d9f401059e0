//! Files of the machine itself.

use super::{BOTH, calls, cut, len, other, read, sync, volume_of, write};
use crate::same::same;
use outside_io::{Failed, FileVolume, VolFile, Volume};
use std::fs;
use std::process::Abort;
use std::rt::Files;

fn path_of(file: VolFile) -> &'static str {
    match file {
        VolFile::Bundle => "file_volume_test.bundle",
        VolFile::Journal => "file_volume_test.journal",
    }
}

fn volume_of_the_machine(rt: &impl Abort, machine: HostRuntime) -> FileVolume<HostRuntime> {
    let bundle = path_of(VolFile::Bundle);
    let journal = path_of(VolFile::Journal);
    volume_of(rt, machine.alloc(), machine, bundle, journal)
}

// Whether the machine has the file, where it tells.
fn is_there(files: &impl Files, file: VolFile) -> Option<bool> {
    fs::exists(files, path_of(file)).ok()
}

// Whether there was a file to remove.
fn is_removed(files: &impl Files, file: VolFile) -> bool {
    fs::remove_file(files, path_of(file)).is_ok()
}

// No file is there yet.
fn finds_none(rt: &(impl Abort + Files), vol: &mut FileVolume<HostRuntime>, file: VolFile) {
    let mut buf = [9; 6];
    same(rt, "length", len(vol, file), Ok(0));
    same(rt, "bytes", read(vol, file, 0, &mut buf), Ok(0));
    let calls = [cut(vol, file, 0), cut(vol, file, 1), sync(vol, file)];
    same(rt, "no file", calls, [Ok(()), Err(Failed), Ok(())]);
    same(rt, "buffer", buf, [9; 6]);
    same(rt, "a sync makes none", is_there(rt, file), Some(false));
}

fn writes_and_reads(rt: &(impl Abort + Files), vol: &mut FileVolume<HostRuntime>, file: VolFile) {
    let mut buf = [9; 6];
    let calls = [
        write(vol, file, 0, b"abcd"),
        write(vol, file, 3, b"XY"),
        sync(vol, file),
        cut(vol, file, 4),
        cut(vol, file, 5),
    ];
    let wanted = [Ok(()), Ok(()), Ok(()), Ok(()), Err(Failed)];
    same(rt, "a file", calls, wanted);
    same(rt, "length", len(vol, file), Ok(4));
    same(rt, "count", read(vol, file, 1, &mut buf), Ok(3));
    same(rt, "bytes", buf, [98, 99, 88, 9, 9, 9]);
    same(rt, "moment", vol.moment(), 12);
    // A write behind the first byte of one of them makes the other one.
    same(rt, "the other file", is_there(rt, other(file)), Some(true));
}

fn file_holds(rt: &(impl Abort + Files + AllocGlobal), file: VolFile, wanted: &[u8]) {
    let bytes = fs::read(rt, path_of(file)).expect(rt, "a file");
    same(rt, "bytes of the file", bytes.as_slice(), wanted);
}

#[test]
fn files_of_the_machine_are_written_and_read_back(rt: HostRuntime) {
    for file in BOTH {
        // What a run before left.
        is_removed(&rt, file);
        is_removed(&rt, other(file));
        let mut vol = volume_of_the_machine(&rt, rt);
        finds_none(&rt, &mut vol, file);
        writes_and_reads(&rt, &mut vol, file);
        // Another volume finds it, and its first write leaves the rest.
        let mut next = volume_of_the_machine(&rt, rt);
        same(&rt, "write", write(&mut next, file, 1, b"Z"), Ok(()));
        file_holds(&rt, file, b"aZcX");
        same(&rt, "removed", is_removed(&rt, file), true);
        is_removed(&rt, other(file));
    }
}

// A place behind 4 GiB. What is before it is a hole, which takes no room on the disk.
const FAR: u64 = (1 << 32) + 5;

#[test]
fn a_file_is_longer_than_4_gib(rt: HostRuntime) {
    for file in BOTH {
        is_removed(&rt, file);
        let mut vol = volume_of_the_machine(&rt, rt);
        let (mut near, mut far) = ([9; 4], [9; 4]);
        same(&rt, "write", write(&mut vol, file, FAR, b"abc"), Ok(()));
        same(&rt, "length", len(&mut vol, file), Ok(FAR + 3));
        same(&rt, "far", read(&mut vol, file, FAR - 1, &mut far), Ok(4));
        same(&rt, "far", far, *b"\0abc");
        same(&rt, "near", read(&mut vol, file, 5, &mut near), Ok(4));
        same(&rt, "near", near, [0; 4]);
        same(
            &rt,
            "behind",
            read(&mut vol, file, FAR + 4, &mut far),
            Ok(0),
        );
        same(&rt, "cut", cut(&mut vol, file, FAR + 1), Ok(()));
        same(&rt, "left", len(&mut vol, file), Ok(FAR + 1));
        same(&rt, "removed", is_removed(&rt, file), true);
        is_removed(&rt, other(file));
    }
}

#[test]
fn a_folder_is_no_file(rt: HostRuntime) {
    for (file, bundle, journal) in [
        (VolFile::Bundle, ".", "no_such_folder/x"),
        (VolFile::Journal, "no_such_folder/x", "."),
    ] {
        let mut vol = volume_of(&rt, rt.alloc(), rt, bundle, journal);
        same(&rt, bundle, calls(&mut vol, file), [false; 5]);
        // A file in a folder that is not there is not there, and cannot be made.
        let in_none = [true, true, false, false, true];
        same(&rt, journal, calls(&mut vol, other(file)), in_none);
    }
}
