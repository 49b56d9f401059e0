//! The listing of a bundle, a row of slots at a time.

ghost use Rattle.std.specs.Prelude.{◌≡◌, ◌+◌, ◌*◌, ◌<◌, ◌≤◌, ◌++◌, length, IsTrue};
ghost use Rattle.outside_io.specs.declared.volume.VolFile.TheVariants.{Bundle};
ghost use Rattle.outside_io.specs.streams.Faults.{CountsFaults};
ghost use Rattle.outside_io.specs.volume.History.{contents};
ghost use Rattle.bundle_index.specs.Entry.{entry_at};
ghost use Rattle.arrayvec.specs.ArrayVec.{array_vec_len};
ghost use Rattle.bundle_lines.specs.Gave.{ListGave};
ghost use Rattle.bundle_lines.specs.Lines.{list_line};
ghost use Rattle.bundle_lines.specs.inside.Rows.{row_lines};
ghost use Rattle.bundle_store.specs.Serving.{Serving};

use arrayvec::ArrayVec;
use bundle_index::{Entry, Slot};
use bundle_store::Session;
use outside_io::{Failed, Line, Sink, Volume, give_all};

/// The greatest number of bytes of a row's lines: four numbers in each.
const ROOM: usize = 10752;

/// The entry of no tile.
const NO_ENTRY: Entry = Entry { offset: 0, size: 0 };

/// The lines of a row, made without taking memory.
type RowLines = ArrayVec<u8, ROOM>;

/// Adds a line behind what is there.
fn add_line(lines: &mut RowLines, line: &[u8])
    requires { array_vec_len lines.old + length line.now ≤ 10752 }
    ensures bytes { lines.new.items ≡ lines.old.items ++ line.now }
    ensures longer { array_vec_len lines.new ≡ array_vec_len lines.old + length line.now }
{
    match lines.try_extend_from_slice(line) {
        Ok(()) => {}
        Err(_) => unreachable!(),
    }
}

/// The line of the slot of a row and a column, which is empty where it has no tile.
#[tactic(auto, unfolding(crate::specs::Lines::list_line))]
fn slot_line(row: u8, col: u8, entry: &Entry) -> Line
    requires { col < 128 }
    ensures text { result ≡ list_line (128 * row + col) entry.now }
    ensures short { length result ≤ 84 }
{
    let mut line = Line::new();
    if entry.size > 0 {
        let mut digits = itoa::Buffer::new();
        line.text(digits.format(row).as_bytes());
        line.number(col.into());
        line.number(entry.offset);
        line.number(entry.size.into());
        line.text(b"\n");
    }
    line
}

/// The entry of the slot of a row and a column.
fn entry_of<V: Volume>(session: &Session, vol: &mut V, row: u8, col: u8) -> Entry
    requires row { row < 128 }
    requires col { col < 128 }
    requires serving { Serving V.told V.history session.now vol.old }
    ensures value { IsTrue (V.told vol.old) →
        result ≡ entry_at (contents Bundle (V.history vol.old)) (128 * row + col) }
    ensures same { vol.new ≡ vol.old }
{
    let Some(slot) = Slot::of(row, col) else {
        return NO_ENTRY;
    };
    match session.entry(vol, slot) {
        Ok(entry) => entry,
        Err(_) => NO_ENTRY,
    }
}

/// Makes the lines of a row, by no device call.
fn spell_row<V: Volume>(session: &Session, vol: &mut V, row: u8, lines: &mut RowLines)
    requires row { row < 128 }
    requires serving { Serving V.told V.history session.now vol.old }
    ensures lines { IsTrue (V.told vol.old) →
        lines.new.items ≡ row_lines (contents Bundle (V.history vol.old)) row 128 }
    ensures same { vol.new ≡ vol.old }
{
    lines.clear();
    for col in 0..128u8 {
        let entry = entry_of(session, vol, row, col);
        add_line(lines, slot_line(row, col, &entry).as_slice());
    }
}

/// Gives the line of each slot that has a tile, by slot number, by no device call. The lines of a
/// row are given at once. It takes no memory.
pub fn list_all<V: Volume, K: Sink>(
    session: &Session,
    vol: &mut V,
    out: &mut K,
) -> Result<(), Failed>
    requires serving { Serving V.told V.history session.now vol.old }
    ensures gave { ListGave (V.told vol.old) (contents Bundle (V.history vol.old)) result
        (K.held out.old) (K.held out.new) }
    ensures same { vol.new ≡ vol.old }
    ensures counted { CountsFaults result (K.faults out.old) (K.faults out.new) }
{
    let mut lines: RowLines = ArrayVec::new();
    for row in 0..128u8 {
        spell_row(session, vol, row, &mut lines);
        give_all(out, lines.as_slice())?;
    }
    Ok(())
}
