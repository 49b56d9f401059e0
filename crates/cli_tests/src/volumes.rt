//! A volume for tests, and inputs of several parts.

use outside_io::{MemVolume, Start};
use std::process::Abort;
use std::thread::Threads;

/// Two files of no bytes.
pub(crate) fn empty_volume(rt: &(impl Abort + AllocGlobal + Threads + Sync)) -> MemVolume {
    let bundle = Start::new(0, Vec::new(rt.alloc()));
    let journal = Start::new(0, Vec::new(rt.alloc()));
    let failing = Vec::new(rt.alloc());
    MemVolume::new(rt.alloc(), bundle, journal, failing, None, 1000, 300_000).expect(rt, "memory")
}

/// The bytes of these parts, one behind the other.
pub(crate) fn join_parts(
    rt: &(impl Abort + AllocGlobal + Threads + Sync),
    parts: &[&[u8]],
) -> Vec<u8> {
    parts.concat(rt.alloc()).expect(rt, "memory")
}
