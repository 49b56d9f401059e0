//! Reading runs.

ghost use Rattle.std.specs.Prelude.{◌≡◌, ◌≢◌, ℕ, unsigned_abs, ◌<◌, ◌≤◌, ◌↔◌, List, length, take, replicate, slice_index, MatchBool, OnOk, IsOk};
ghost use Rattle.mask_runs.specs.Runs.{Runs};
ghost use Rattle.mask_runs.specs.Fault.{FirstRunFault, HasRunCount, end_count};
ghost use Rattle.mask_runs.specs.inside.Steps.{ReadsRun, ReadsRunBody};

use byteorder::{ByteOrder, LittleEndian};

/// The first place, counted from 0, at which bytes are no runs of a mask of the wanted length.
///
/// It is the first byte of a run's count where the count is cut or is 0, where the bytes of the run
/// are cut, or where the run would pass the end of the mask; the first byte of the end mark where
/// the mask is not full; and the first byte after the end mark where there is one.
#[derive(Clone, Copy, Debug, PartialEq, Eq)]
pub struct RunFault {
    pub at: usize,
}

/// What comes first in some bytes, where so much of a mask is still to come.
#[derive(Clone, Copy)]
enum RunStep {
    /// A run of so many bytes, which gave so many bytes of the mask.
    Taken(usize, usize),
    /// The end mark, at the end of the mask.
    End,
    /// Neither.
    Fault,
}

/// Puts the bytes of a literal into `part`; whether there are enough of them.
fn copy_literal(body: &[u8], part: &mut [u8]) -> bool
    ensures { MatchBool result
        ((length part.old ≤ length body.now) × (part.new ≡ take (length part.old) body.now))
        (length body.now < length part.old) }
{
    let enough = part.len() <= body.len();
    if enough {
        part.copy_from_slice(&body[..part.len()]);
    }
    enough
}

/// Fills `part` with the byte of a repeat; whether there is one.
fn fill_repeat(body: &[u8], part: &mut [u8]) -> bool
    ensures { MatchBool result
        ((0 < length body.now) × (part.new ≡ replicate (length part.old) (slice_index body.now 0)))
        (length body.now ≡ 0) }
{
    if body.is_empty() {
        return false;
    }
    part.fill(body[0]);
    true
}

/// ReadsRun the run whose count, which stands first, is `count`; `part` takes what it gives.
fn read_body(bytes: &[u8], count: i16, part: &mut [u8]) -> RunStep
    requires count { HasRunCount count bytes.now }
    requires length { unsigned_abs count ≡ length part.old }
    requires some { 0 < length part.old }
    requires not_end { count ≢ end_count }
    ensures { ReadsRunBody bytes.now count part.new result }
{
    let body = &bytes[2..];
    let given = part.len();
    if count > 0 {
        if copy_literal(body, part) {
            RunStep::Taken(2 + given, given)
        } else {
            RunStep::Fault
        }
    } else if fill_repeat(body, part) {
        RunStep::Taken(3, given)
    } else {
        RunStep::Fault
    }
}

/// ReadsRun the run or the end mark that comes first; `rest` is what is still to come of the mask.
fn read_run(bytes: &[u8], rest: &mut [u8]) -> RunStep
    ensures { ReadsRun bytes.now rest.old rest.new result }
{
    if bytes.len() < 2 {
        return RunStep::Fault;
    }
    let count = LittleEndian::read_i16(bytes);
    if count == i16::MIN {
        return if rest.is_empty() {
            RunStep::End
        } else {
            RunStep::Fault
        };
    }
    let given = usize::from(count.unsigned_abs());
    if given == 0 || given > rest.len() {
        return RunStep::Fault;
    }
    read_body(bytes, count, &mut rest[..given])
}

/// ReadsRun the runs of a mask into `out`, which has the mask's length.
///
/// After a fault `out` has any content.
pub fn read_runs(bytes: &[u8], out: &mut [u8]) -> Result<(), RunFault>
    ensures ok { OnOk result (Runs bytes.now out.new) }
    ensures complete { (mask : List ℕ) → length mask ≡ length out.old → Runs bytes.now mask
        → IsOk result × (out.new ≡ mask) }
    ensures fault { (place : ℕ)
        → (result ≡ Err (record { at = place })) ↔ FirstRunFault bytes.now (length out.old) place }
{
    let mut at = 0;
    let mut filled = 0;
    loop {
        match read_run(&bytes[at..], &mut out[filled..]) {
            RunStep::Taken(taken, given) => {
                at += taken;
                filled += given;
            }
            RunStep::End => {
                at += 2;
                return if at == bytes.len() {
                    Ok(())
                } else {
                    Err(RunFault { at })
                };
            }
            RunStep::Fault => return Err(RunFault { at }),
        }
    }
}
