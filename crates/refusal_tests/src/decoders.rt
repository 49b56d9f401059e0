//! A decoder that answered want of memory answers it from then on.

use lerc_decode::{DecodeFault, Decoder, FedState};
use std::alloc::AllocError;
use std::process::Abort;
use worked_examples::BLOB;

/// The decoder takes nothing more and gives no raster, for want of memory.
fn stays(rt: &impl Abort, mut decoder: Decoder) -> Result<(), AllocError> {
    let fed = decoder.feed(&BLOB[1..]);
    assert!(rt; fed.state == FedState::OutOfMemory && fed.used == 0);
    match decoder.finish() {
        Err(DecodeFault::OutOfMemory) => Err(AllocError),
        _ => panic!(rt; "want of memory is forgotten"),
    }
}

/// The blob is fed in pieces of this many bytes.
fn feed_by(rt: &(impl Abort + AllocGlobal), size: usize) -> Result<(), AllocError> {
    let mut decoder = Decoder::new(rt.alloc());
    for piece in BLOB.chunks(size.max(1)) {
        if decoder.feed(piece).state == FedState::OutOfMemory {
            return stays(rt, decoder);
        }
    }
    match decoder.finish() {
        Ok(_) => Ok(()),
        Err(DecodeFault::OutOfMemory) => Err(AllocError),
        Err(_) => panic!(rt; "a right blob is refused"),
    }
}

#[test]
fn want_of_memory_is_answered_from_then_on(rt: HostRuntime) -> Result<(), AllocError> {
    feed_by(&rt, 66)?;
    feed_by(&rt, 1)
}
