//! The lines of tiles, and of the totals.

ghost use Rattle.std.specs.Prelude.{◌≡◌, ◌+◌, ◌≤◌, ◌++◌, IfOk, List, length};
ghost use Rattle.arrayvec.specs.ArrayVec.{array_vec_len};
ghost use Rattle.tile_audit.specs.Gave.{AreTotals};
ghost use Rattle.tile_audit.specs.Lines.{audit_lines, fault_fields, field, finding_fields, has_line, judged_fields, misplaced_fields, no_field, no_shape, number_field, plain_fields, reason_name_of, shape_fields, sum_field, tile_line, total_line, total_lines};
ghost use Rattle.tile_audit.specs.inside.Waits.{place_field};
ghost use Rattle.tile_audit.specs.declared.told.AuditedTile.{AuditedTile};

use crate::counting::{finds_summed, finds_whole};
use crate::judged::{Judged, Shape};
use crate::told::{AuditedTile, Finding};
use crate::totals::Totals;
use arrayvec::ArrayVec;
use byteorder::{ByteOrder, LittleEndian};
use command_words::type_word;
use lerc_grammar::BandReason;
use reason_names::blob_name;
use std::alloc::{AllocError, Global};

/// The greatest number of bytes of a text: of a tile's line of fourteen fields, or of the totals.
const ROOM: usize = 512;

/// A text that is made without taking memory.
pub(crate) type Text = ArrayVec<u8, ROOM>;

/// Adds text behind what is there.
fn add_text(line: &mut Text, text: &[u8])
    requires { array_vec_len line.old + length text.now ≤ 512 }
    ensures bytes { line.new.items ≡ line.old.items ++ text.now }
    ensures longer { array_vec_len line.new ≡ array_vec_len line.old + length text.now }
{
    match line.try_extend_from_slice(text) {
        Ok(()) => {}
        Err(_) => unreachable!(),
    }
}

/// Adds a field.
fn add_field(line: &mut Text, text: &[u8])
    requires { array_vec_len line.old + length text.now ≤ 511 }
    ensures bytes { line.new.items ≡ line.old.items ++ field text.now }
    ensures longer { array_vec_len line.new ≡ array_vec_len line.old + length text.now + 1 }
{
    add_text(line, b"\t");
    add_text(line, text);
}

/// Adds a field that has nothing to say.
fn add_no_field(line: &mut Text)
    requires { array_vec_len line.old ≤ 510 }
    ensures bytes { line.new.items ≡ line.old.items ++ no_field }
    ensures longer { array_vec_len line.new ≡ array_vec_len line.old + 2 }
{
    add_field(line, b"-");
}

/// Adds a number.
fn add_number(line: &mut Text, n: u64)
    requires { array_vec_len line.old ≤ 490 }
    ensures bytes { line.new.items ≡ line.old.items ++ number_field n }
    ensures longer { array_vec_len line.new ≤ array_vec_len line.old + 21 }
{
    let mut digits = itoa::Buffer::new();
    add_field(line, digits.format(n).as_bytes());
}

/// Adds a checksum: its bytes in hexadecimal, the lowest first.
fn add_sum(line: &mut Text, sum: u32)
    requires { array_vec_len line.old ≤ 500 }
    ensures bytes { line.new.items ≡ line.old.items ++ sum_field sum }
    ensures longer { array_vec_len line.new ≡ array_vec_len line.old + 9 }
{
    let mut bytes = [0; 4];
    LittleEndian::write_u32(&mut bytes, sum);
    let mut digits = [0; 8];
    match hex::encode_to_slice(bytes.as_slice(), &mut digits) {
        Ok(()) => add_field(line, &digits),
        Err(_) => unreachable!(),
    }
}

/// The name of a reason that a tile is damaged for.
fn reason_name(reason: BandReason) -> &'static [u8]
    ensures name { result.now ≡ reason_name_of reason }
    ensures short { length result.now ≤ 30 }
{
    match reason {
        BandReason::Blob(reason) => blob_name(reason),
        BandReason::BadBand => b"BadBand",
    }
}

/// Adds type, rows, columns, depth, bands and valid pixels.
fn add_shape(line: &mut Text, shape: &Shape)
    requires { array_vec_len line.old ≤ 400 }
    ensures bytes { line.new.items ≡ line.old.items ++ shape_fields shape.now }
    ensures longer { array_vec_len line.new ≤ array_vec_len line.old + 109 }
{
    add_field(line, type_word(shape.kind));
    add_number(line, shape.rows.into());
    add_number(line, shape.cols.into());
    add_number(line, shape.depth.into());
    add_number(line, shape.bands.into());
    add_number(line, shape.valid);
}

/// Adds the fields of no shape.
fn add_no_shape(line: &mut Text)
    requires { array_vec_len line.old ≤ 400 }
    ensures bytes { line.new.items ≡ line.old.items ++ no_shape }
    ensures longer { array_vec_len line.new ≡ array_vec_len line.old + 12 }
{
    add_no_field(line);
    add_no_field(line);
    add_no_field(line);
    add_no_field(line);
    add_no_field(line);
    add_no_field(line);
}

/// Adds a verdict that says no more.
fn add_plain(line: &mut Text, verdict: &[u8])
    requires line { array_vec_len line.old ≤ 300 }
    requires verdict { length verdict.now ≤ 10 }
    ensures bytes { line.new.items ≡ line.old.items ++ plain_fields verdict.now }
    ensures longer { array_vec_len line.new ≤ array_vec_len line.old + 27 }
{
    add_field(line, verdict);
    add_no_field(line);
    add_no_field(line);
    add_no_shape(line);
}

/// Adds a verdict with a reason and a number, or none.
fn add_fault(line: &mut Text, verdict: &[u8], reason: &[u8], number: Option<u64>)
    requires line { array_vec_len line.old ≤ 300 }
    requires verdict { length verdict.now ≤ 10 }
    requires reason { length reason.now ≤ 30 }
    ensures bytes { line.new.items ≡ line.old.items
        ++ fault_fields verdict.now reason.now (place_field number) }
    ensures longer { array_vec_len line.new ≤ array_vec_len line.old + 75 }
{
    add_field(line, verdict);
    add_field(line, reason);
    match number {
        Some(number) => add_number(line, number),
        None => add_no_field(line),
    }
    add_no_shape(line);
}

/// Adds a verdict on a tile whose entry is good.
fn add_judged(line: &mut Text, judged: &Judged)
    requires { array_vec_len line.old ≤ 300 }
    ensures bytes { line.new.items ≡ line.old.items ++ judged_fields judged.now }
    ensures longer { array_vec_len line.new ≤ array_vec_len line.old + 124 }
{
    match judged {
        Judged::Whole(shape) => {
            add_field(line, b"whole");
            add_no_field(line);
            add_no_field(line);
            add_shape(line, shape);
        }
        Judged::Summed => add_plain(line, b"summed"),
        Judged::Foreign => add_plain(line, b"foreign"),
        Judged::Unread => add_fault(line, b"unread", b"BadVersion", Some(6)),
        Judged::Damaged(fault) => {
            add_fault(
                line,
                b"damaged",
                reason_name(fault.reason),
                Some(fault.place),
            );
        }
    }
}

/// Adds a verdict on a tile whose entry is bad.
fn add_misplaced(line: &mut Text, judged: &Judged)
    requires { array_vec_len line.old ≤ 300 }
    ensures bytes { line.new.items ≡ line.old.items ++ misplaced_fields judged.now }
    ensures longer { array_vec_len line.new ≤ array_vec_len line.old + 124 }
{
    match judged {
        Judged::Damaged(_) => add_judged(line, judged),
        _ => add_fault(line, b"damaged", b"BadRecord", None),
    }
}

/// Adds what is found of a tile.
fn add_finding(line: &mut Text, finding: &Finding)
    requires { array_vec_len line.old ≤ 200 }
    ensures bytes { line.new.items ≡ line.old.items ++ finding_fields finding.now }
    ensures longer { array_vec_len line.new ≤ array_vec_len line.old + 133 }
{
    match finding {
        Finding::Failed => {
            add_no_field(line);
            add_fault(line, b"damaged", b"Failed", None);
        }
        Finding::Beyond { got } => {
            add_no_field(line);
            add_fault(line, b"damaged", b"Beyond", Some(*got));
        }
        Finding::Read {
            judged,
            sum,
            bad_record,
        } => {
            add_sum(line, *sum);
            if *bad_record {
                add_misplaced(line, judged);
            } else {
                add_judged(line, judged);
            }
        }
    }
}

/// The line of a tile.
#[tactic(auto, unfolding(crate::specs::Lines::tile_line))]
fn line_of(tile: &AuditedTile) -> Text
    ensures { result.items ≡ tile_line tile.now }
{
    let mut line: Text = ArrayVec::new();
    let mut digits = itoa::Buffer::new();
    add_text(&mut line, digits.format(tile.slot.row()).as_bytes());
    add_number(&mut line, tile.slot.col().into());
    add_number(&mut line, tile.entry.offset);
    add_number(&mut line, tile.entry.size.into());
    add_finding(&mut line, &tile.finding);
    add_text(&mut line, b"\n");
    line
}

/// Whether a tile has a line: each has where all are asked for, else those that are neither whole
/// nor summed.
fn needs_line(all: bool, finding: &Finding) -> bool
    ensures { result ≡ has_line all finding.now }
{
    all || (!finds_whole(finding) && !finds_summed(finding))
}

/// The lines of tiles. Want of memory is the only error.
pub(crate) fn lines_of(
    alloc: Global,
    tiles: &[AuditedTile],
    all: bool,
) -> Result<Vec<u8>, AllocError>
    ensures { IfOk result (λ lines. lines.items ≡ audit_lines all tiles.now) }
{
    let mut lines = Vec::new(alloc);
    for tile in tiles {
        if needs_line(all, &tile.finding) {
            lines.extend_from_slice(line_of(tile).as_slice())?;
        }
    }
    Ok(lines)
}

/// Adds a line of the totals.
fn add_total(line: &mut Text, name: &[u8], n: u64)
    requires name { length name.now ≤ 7 }
    requires line { array_vec_len line.old ≤ 480 }
    ensures bytes { line.new.items ≡ line.old.items ++ total_line name.now n }
    ensures longer { array_vec_len line.new ≤ array_vec_len line.old + 29 }
{
    let mut digits = itoa::Buffer::new();
    add_text(line, name);
    add_text(line, b" ");
    add_text(line, digits.format(n).as_bytes());
    add_text(line, b"\n");
}

/// The lines of the totals.
#[tactic(auto, unfolding(crate::specs::Lines::total_lines))]
pub(crate) fn total_text(totals: &Totals) -> Text
    ensures { (tiles : List AuditedTile) → AreTotals tiles totals.now →
        result.items ≡ total_lines tiles }
{
    let mut line: Text = ArrayVec::new();
    add_total(&mut line, b"tiles", totals.tiles.into());
    add_total(&mut line, b"bytes", totals.bytes);
    add_total(&mut line, b"whole", totals.whole.into());
    add_total(&mut line, b"summed", totals.summed.into());
    add_total(&mut line, b"foreign", totals.foreign.into());
    add_total(&mut line, b"unread", totals.unread.into());
    add_total(&mut line, b"damaged", totals.damaged.into());
    add_total(&mut line, b"pixels", totals.pixels);
    line
}
