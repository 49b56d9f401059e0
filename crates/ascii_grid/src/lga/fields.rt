//! The fields before the grid.

ghost use Rattle.std.specs.Prelude.{◌≡◌, ◌+◌, ◌<◌, ◌≤◌, ◌^◌, ◌∷◌, ℕ, [], All, IfOk, IfErr, OnOk, FitsSigned, IsTrue, ◌↔◌, length, take, unsigned_abs, codes};
ghost use Rattle.std.specs.Int.{w64};
ghost use Rattle.ascii_grid.specs.Lga.{IsFlags, IsMagic, IsNodataField, IsTextField, IsTextLength, flag_faults, magic_faults, nodata_faults, text_field_faults};
ghost use Rattle.ascii_grid.specs.inside.Fields.{Tells, TookField, TookPart, short_faults};
ghost use Rattle.ascii_grid.specs.Stopping.{CountsStop};

use crate::fault::{AsciiReason, AsciiStop, stop};
use crate::text::copy_bytes;
use crate::words::are_text_bytes;
use byteorder::{ByteOrder, LittleEndian};
use outside_io::{Bytes, Source, take_all};
use std::alloc::Global;

/// Which of the two texts of a corner are those of the centre of the cell there.
#[derive(Clone, Copy)]
pub struct Centres {
    pub x: bool,
    pub y: bool,
}

/// Takes so many bytes as the buffer is long.
fn take_field<S: Source>(src: &mut S, at: u64, buffer: &mut [u8]) -> Result<(), AsciiStop>
    requires at { at < 2 ^ 60 }
    requires few { length buffer.old ≤ 32 }
    ensures size { length buffer.new ≡ length buffer.old }
    ensures ok { OnOk result
        (TookField (length buffer.old) (S.left src.old) (S.left src.new) buffer.new) }
    ensures err { IfErr result
        (λ e. Tells (short_faults (length buffer.old)) (S.left src.old) at e) }
    ensures counted { CountsStop result (S.faults src.old) (S.faults src.new) }
{
    let n = take_all(src, buffer)?;
    if n < buffer.len() {
        return Err(stop(AsciiReason::Truncated, at + n as u64));
    }
    Ok(())
}

/// Whether the bytes are the magic.
fn is_magic(field: &[u8]) -> bool
    ensures { IsTrue result ↔ (field.now ≡ codes "LGA1") }
{
    field == b"LGA1".as_slice()
}

/// Takes the four bytes of magic.
pub(super) fn take_magic<S: Source>(src: &mut S) -> Result<(), AsciiStop>
    ensures ok { IfOk result (λ u. TookPart IsMagic (S.left src.old) (S.left src.new) u) }
    ensures err { IfErr result (λ e. Tells magic_faults (S.left src.old) 0 e) }
    ensures counted { CountsStop result (S.faults src.old) (S.faults src.new) }
{
    let mut magic = [0; 4];
    take_field(src, 0, &mut magic)?;
    if !is_magic(&magic) {
        return Err(stop(AsciiReason::BadMagic, 0));
    }
    Ok(())
}

/// The centres that flags say.
fn centres_of(flags: u8) -> Centres
    requires { flags ≤ 3 }
    ensures { IsFlags (flags ∷ []) result }
{
    Centres {
        x: flags % 2 == 1,
        y: flags >= 2,
    }
}

/// Takes the byte of flags.
pub(super) fn take_flags<S: Source>(src: &mut S) -> Result<Centres, AsciiStop>
    ensures ok { IfOk result (λ c. TookPart IsFlags (S.left src.old) (S.left src.new) c) }
    ensures err { IfErr result (λ e. Tells flag_faults (S.left src.old) 4 e) }
    ensures counted { CountsStop result (S.faults src.old) (S.faults src.new) }
{
    let mut flags = [0; 1];
    take_field(src, 4, &mut flags)?;
    if flags[0] > 3 {
        return Err(stop(AsciiReason::BadFlags, 4));
    }
    Ok(centres_of(flags[0]))
}

/// Takes the length of a text.
fn take_length<S: Source>(src: &mut S, at: u64) -> Result<usize, AsciiStop>
    requires { at < 2 ^ 60 }
    ensures ok { IfOk result (λ n. IsTextLength n
        × TookField 1 (S.left src.old) (S.left src.new) (n ∷ [])) }
    ensures err { IfErr result (λ e. Tells text_field_faults (S.left src.old) at e) }
    ensures counted { CountsStop result (S.faults src.old) (S.faults src.new) }
{
    let mut length = [0; 1];
    take_field(src, at, &mut length)?;
    if length[0] == 0 || length[0] > 32 {
        return Err(stop(AsciiReason::BadText, at));
    }
    Ok(length[0] as usize)
}

/// Takes a text behind its length. Memory is wanted for it.
pub(super) fn take_text<S: Source>(alloc: Global, src: &mut S, at: u64) -> Result<Bytes, AsciiStop>
    requires { at < 2 ^ 59 }
    ensures ok { IfOk result (λ text. TookPart IsTextField (S.left src.old) (S.left src.new) text) }
    ensures few { IfOk result (λ text. length text ≤ 32) }
    ensures err { IfErr result (λ e. Tells text_field_faults (S.left src.old) at e) }
    ensures counted { CountsStop result (S.faults src.old) (S.faults src.new) }
{
    let n = take_length(src, at)?;
    let mut buffer = [0; 32];
    let text = &mut buffer[..n];
    take_field(src, at + 1, text)?;
    if !are_text_bytes(text) {
        return Err(stop(AsciiReason::BadText, at));
    }
    copy_bytes(alloc, text)
}

/// Takes the nodata value.
pub(super) fn take_nodata<S: Source>(src: &mut S, at: u64) -> Result<i64, AsciiStop>
    requires { at < 2 ^ 59 }
    ensures ok { IfOk result
        (λ nodata. TookPart IsNodataField (S.left src.old) (S.left src.new) nodata) }
    ensures fits { IfOk result (λ nodata. FitsSigned w64 nodata) }
    ensures err { IfErr result (λ e. Tells nodata_faults (S.left src.old) at e) }
    ensures counted { CountsStop result (S.faults src.old) (S.faults src.new) }
{
    let mut bytes = [0; 8];
    take_field(src, at, &mut bytes)?;
    let number = LittleEndian::read_u64(&bytes);
    let nodata = number.cast_signed();
    if nodata.unsigned_abs() >= 10_000_000_000 {
        return Err(stop(AsciiReason::BadNumber, at));
    }
    Ok(nodata)
}
