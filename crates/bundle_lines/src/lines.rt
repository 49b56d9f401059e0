//! The lines, made on the stack.

ghost use Rattle.std.specs.Prelude.{◌≡◌, ◌+◌, ◌<◌, ◌≤◌, ◌++◌, length, OnOk, OnErr};
ghost use Rattle.outside_io.specs.program.Line.{and_number};
ghost use Rattle.outside_io.specs.streams.Faults.{CountsFaults};
ghost use Rattle.outside_io.specs.streams.Sink.{Holds, HoldsPrefix};
ghost use Rattle.bundle_index.specs.Sizes.{slot_count};
ghost use Rattle.bundle_lines.specs.Lines.{built_line, check_lines, first_line, named_line, put_line_of, recovery_line, slot_text};

use bundle_index::Slot;
use bundle_store::{CheckReport, Recovery};
use outside_io::{Failed, Line, Sink, give_all};

/// Adds a slot's row and its column.
fn add_slot(line: &mut Line, slot: Slot)
    requires { length line.old ≤ 140 }
    ensures text { line.new ≡ line.old ++ slot_text slot }
    ensures short { length line.new ≤ length line.old + 42 }
{
    line.number(slot.row().into());
    line.number(slot.col().into());
}

/// Adds a line of a name and a number.
fn add_number(line: &mut Line, name: &[u8], n: u64)
    requires { length line.old + length name.now ≤ 170 }
    ensures text { line.new ≡ line.old ++ named_line name.now (and_number n) }
    ensures short { length line.new ≤ length line.old + length name.now + 22 }
{
    line.text(name);
    line.number(n);
    line.text(b"\n");
}

/// The line of a put.
#[tactic(auto, unfolding(crate::specs::Lines::put_line_of))]
fn put_line(slot: Slot, size: usize) -> Line
    ensures text { result ≡ put_line_of slot size }
{
    let mut line = Line::new();
    line.text(b"put");
    add_slot(&mut line, slot);
    line.number(size as u64);
    line.text(b"\n");
    line
}

/// The line of a build.
#[tactic(auto, unfolding(crate::specs::Lines::built_line))]
fn line_of_built(tiles: u64, len: u64) -> Line
    ensures { result ≡ built_line tiles len }
{
    let mut line = Line::new();
    line.text(b"built");
    line.number(tiles);
    line.number(len);
    line.text(b"\n");
    line
}

/// Adds the line of the first bad entry, if there is one.
fn add_first(line: &mut Line, first: Option<Slot>)
    requires { length line.old ≤ 130 }
    ensures text { line.new ≡ line.old ++ first_line first }
{
    if let Some(slot) = first {
        line.text(b"first");
        add_slot(line, slot);
        line.text(b"\n");
    }
}

/// The lines of a check.
#[tactic(auto, unfolding(crate::specs::Lines::check_lines))]
fn lines_of_report(report: CheckReport) -> Line
    ensures { result ≡ check_lines report }
{
    let mut line = Line::new();
    add_number(&mut line, b"tiles", report.tiles.into());
    add_number(&mut line, b"bytes", report.bytes);
    add_number(&mut line, b"bad", report.bad.into());
    add_first(&mut line, report.first_bad);
    line
}

/// The line of a recovery.
#[tactic(auto, unfolding(crate::specs::Lines::recovery_line))]
fn text_of_recovery(found: Recovery) -> &'static [u8]
    ensures { result.now ≡ recovery_line found }
{
    match found {
        Recovery::Closed => b"closed\n",
        Recovery::Applied => b"applied\n",
        Recovery::Emptied => b"emptied\n",
    }
}

/// Gives the line of a tile that was put into the slot. It takes no memory.
pub(crate) fn give_put<K: Sink>(slot: Slot, size: usize, out: &mut K) -> Result<(), Failed>
    ensures ok { OnOk result (Holds (K.held out.old) (K.held out.new) (put_line_of slot size)) }
    ensures err { OnErr result
        (HoldsPrefix (K.held out.old) (K.held out.new) (put_line_of slot size)) }
    ensures slot { slot < slot_count }
    ensures counted { CountsFaults result (K.faults out.old) (K.faults out.new) }
{
    // for the proof: `number` ensures that there is such a slot
    let _number = slot.number();
    give_all(out, put_line(slot, size).as_slice())
}

/// Gives the line of a bundle of so many tiles and bytes that was built. It takes no memory.
pub fn give_built<K: Sink>(tiles: u64, len: u64, out: &mut K) -> Result<(), Failed>
    ensures ok { OnOk result (Holds (K.held out.old) (K.held out.new) (built_line tiles len)) }
    ensures err { OnErr result
        (HoldsPrefix (K.held out.old) (K.held out.new) (built_line tiles len)) }
    ensures counted { CountsFaults result (K.faults out.old) (K.faults out.new) }
{
    give_all(out, line_of_built(tiles, len).as_slice())
}

/// Gives the lines of what a check found. It takes no memory.
pub fn give_report<K: Sink>(report: CheckReport, out: &mut K) -> Result<(), Failed>
    ensures ok { OnOk result (Holds (K.held out.old) (K.held out.new) (check_lines report)) }
    ensures err { OnErr result
        (HoldsPrefix (K.held out.old) (K.held out.new) (check_lines report)) }
    ensures counted { CountsFaults result (K.faults out.old) (K.faults out.new) }
{
    give_all(out, lines_of_report(report).as_slice())
}

/// Gives the line of what a recovery did. It takes no memory.
pub fn give_recovery<K: Sink>(found: Recovery, out: &mut K) -> Result<(), Failed>
    ensures ok { OnOk result (Holds (K.held out.old) (K.held out.new) (recovery_line found)) }
    ensures err { OnErr result
        (HoldsPrefix (K.held out.old) (K.held out.new) (recovery_line found)) }
    ensures counted { CountsFaults result (K.faults out.old) (K.faults out.new) }
{
    give_all(out, text_of_recovery(found))
}
