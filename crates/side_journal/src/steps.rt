//! The steps of a journal: it is made ready, written, opened and closed.

ghost use Rattle.std.specs.Prelude.{◌≡◌, ◌≤◌, ◌+◌, ◌↔◌, true, ◌∷◌, ◌++◌, [], length, drop, IsTrue, OnOk};
ghost use Rattle.outside_io.specs.declared.volume.VolFile.TheVariants.{Journal};
ghost use Rattle.outside_io.specs.volume.Disk.{IsSettled, change, settled};
ghost use Rattle.outside_io.specs.streams.Faults.{CountsFaults};
ghost use Rattle.outside_io.specs.volume.History.{During, contents, current};
ghost use Rattle.side_journal.specs.Says.{IsOpen, IsWhole};
ghost use Rattle.side_journal.specs.Bodies.{IsWritten, body_bytes};
ghost use Rattle.side_journal.specs.Steps.{EachOpen, EachShut, IsReady, KeepsBody, KeepsClosed};

use crate::Body;
use crate::spelling::spell;
use outside_io::{Failed, VolFile, Volume};

/// Whether it is the length of one of the two forms.
fn is_whole(len: u64) -> bool
    ensures { (result ≡ true) ↔ IsWhole len }
{
    len == 96 || len == 1112
}

/// Leaves a closed gate at the front of the journal: a journal that has the length of neither form
/// is made one byte 0. Failed only where the volume failed; a crash then leaves no open journal.
pub fn prepare<V: Volume>(vol: &mut V) -> Result<(), Failed>
    requires closed { IsTrue (V.told vol.old) → ¬ IsOpen (contents Journal (V.history vol.old)) }
    requires settled { IsTrue (V.told vol.old) → IsSettled (current (V.history vol.old)).journal }
    ensures ready { IsTrue (V.told vol.old) →
        OnOk result (IsReady (contents Journal (V.history vol.new))) }
    ensures settled { IsTrue (V.told vol.old) →
        OnOk result (IsSettled (current (V.history vol.new)).journal) }
    ensures bundle { IsTrue (V.told vol.old) → (current (V.history vol.new)).bundle
        ≡ (current (V.history vol.old)).bundle }
    ensures during { IsTrue (V.told vol.old) → During (KeepsClosed (current (V.history vol.old)))
        (V.history vol.old) (V.history vol.new) }
    ensures told { V.told vol.new ≡ V.told vol.old }
    ensures calls { (V.history vol.new).moment ≤ (V.history vol.old).moment + 4 }
    ensures counted { CountsFaults result (V.faults vol.old) (V.faults vol.new) }
{
    let len = vol.len(VolFile::Journal)?;
    let whole = is_whole(len);
    if !whole {
        vol.cut(VolFile::Journal, 0)?;
        vol.write(VolFile::Journal, 0, &[0])?;
        vol.sync(VolFile::Journal)?;
    }
    Ok(())
}

/// Writes the body behind the closed gate, and syncs it. Failed only where the volume failed; a
/// crash then leaves no open journal.
pub fn arm<V: Volume>(vol: &mut V, body: &Body) -> Result<(), Failed>
    requires body { IsWritten body.now }
    requires ready { IsTrue (V.told vol.old) → IsReady (contents Journal (V.history vol.old)) }
    requires settled { IsTrue (V.told vol.old) → IsSettled (current (V.history vol.old)).journal }
    ensures done { IsTrue (V.told vol.old) → OnOk result (current (V.history vol.new)
        ≡ change Journal (λ _. settled (0 ∷ body_bytes body.now)) (current (V.history vol.old))) }
    ensures during { IsTrue (V.told vol.old) → During (KeepsClosed (current (V.history vol.old)))
        (V.history vol.old) (V.history vol.new) }
    ensures told { V.told vol.new ≡ V.told vol.old }
    ensures calls { (V.history vol.new).moment ≤ (V.history vol.old).moment + 2 }
    ensures counted { CountsFaults result (V.faults vol.old) (V.faults vol.new) }
{
    let bytes = spell(body);
    vol.write(VolFile::Journal, 1, &bytes)?;
    vol.sync(VolFile::Journal)
}

/// Writes the gate, and syncs it.
fn set_gate<V: Volume>(vol: &mut V, gate: u8) -> Result<(), Failed>
    requires whole { IsTrue (V.told vol.old) →
        IsWhole (length (contents Journal (V.history vol.old))) }
    requires settled { IsTrue (V.told vol.old) → IsSettled (current (V.history vol.old)).journal }
    ensures done { IsTrue (V.told vol.old) → OnOk result (current (V.history vol.new)
        ≡ change Journal (λ f. settled (gate ∷ drop 1 f.now)) (current (V.history vol.old))) }
    ensures during { IsTrue (V.told vol.old) → During (KeepsBody (current (V.history vol.old)))
        (V.history vol.old) (V.history vol.new) }
    ensures told { V.told vol.new ≡ V.told vol.old }
    ensures calls { (V.history vol.new).moment ≤ (V.history vol.old).moment + 2 }
    ensures counted { CountsFaults result (V.faults vol.old) (V.faults vol.new) }
{
    vol.write(VolFile::Journal, 0, &[gate])?;
    vol.sync(VolFile::Journal)
}

/// Opens the gate: from its sync on the journal counts. Failed only where the volume failed; a
/// crash then leaves the gate open or closed, before the same body.
pub fn open_gate<V: Volume>(vol: &mut V) -> Result<(), Failed>
    requires whole { IsTrue (V.told vol.old) →
        IsWhole (length (contents Journal (V.history vol.old))) }
    requires settled { IsTrue (V.told vol.old) → IsSettled (current (V.history vol.old)).journal }
    ensures done { IsTrue (V.told vol.old) → OnOk result (current (V.history vol.new)
        ≡ change Journal (λ f. settled (1 ∷ drop 1 f.now)) (current (V.history vol.old))) }
    ensures opened { IsTrue (V.told vol.old) →
        OnOk result (EachOpen (current (V.history vol.new))) }
    ensures during { IsTrue (V.told vol.old) → During (KeepsBody (current (V.history vol.old)))
        (V.history vol.old) (V.history vol.new) }
    ensures told { V.told vol.new ≡ V.told vol.old }
    ensures calls { (V.history vol.new).moment ≤ (V.history vol.old).moment + 2 }
    ensures counted { CountsFaults result (V.faults vol.old) (V.faults vol.new) }
{
    set_gate(vol, 1)
}

/// Closes the gate: from its sync on the journal does not count. Failed only where the volume
/// failed; a crash then leaves the gate open or closed, before the same body.
pub fn close_gate<V: Volume>(vol: &mut V) -> Result<(), Failed>
    requires whole { IsTrue (V.told vol.old) →
        IsWhole (length (contents Journal (V.history vol.old))) }
    requires settled { IsTrue (V.told vol.old) → IsSettled (current (V.history vol.old)).journal }
    ensures done { IsTrue (V.told vol.old) → OnOk result (current (V.history vol.new)
        ≡ change Journal (λ f. settled (0 ∷ drop 1 f.now)) (current (V.history vol.old))) }
    ensures shut { IsTrue (V.told vol.old) → OnOk result (EachShut (current (V.history vol.new))) }
    ensures during { IsTrue (V.told vol.old) → During (KeepsBody (current (V.history vol.old)))
        (V.history vol.old) (V.history vol.new) }
    ensures told { V.told vol.new ≡ V.told vol.old }
    ensures calls { (V.history vol.new).moment ≤ (V.history vol.old).moment + 2 }
    ensures counted { CountsFaults result (V.faults vol.old) (V.faults vol.new) }
{
    set_gate(vol, 0)
}
