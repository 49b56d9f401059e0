//! The program's own reasons for a stop, beside those of any program.

ghost use Rattle.std.specs.Prelude.{◌≡◌, ◌≤◌, length};
ghost use Rattle.audit_cli.specs.Names.{audit_stop_of, damaged_text, plain_text, with_store};

use opened_bundle::{StoreRefusal, add_two};
use outside_io::Line;
use program_ends::Stop;
use tile_audit::AuditStop;

/// Why a run ends otherwise than well: tiles are damaged, or there is no bundle to be audited.
#[derive(Clone, Copy)]
pub enum Refusal {
    /// So many of so many tiles are damaged. All lines were given. Its status is 9.
    Damaged { damaged: u32, tiles: u32 },
    /// The journal counts, and says what is under way: a recovery is owed. Its status is 7, as that
    /// of the rest.
    JournalOpen,
    /// There is no bundle, or it is empty.
    NoBundle,
    /// The journal or the bundle fails a test.
    Store(StoreRefusal),
}

impl program_ends::Refusal for Refusal {
    ghost use Rattle.audit_cli.specs.Names.{refusal_status, refusal_text};

    ghost status = { refusal_status };

    ghost text = { refusal_text };

    fn status(&self) -> u8 {
        match self {
            Refusal::Damaged { .. } => 9,
            Refusal::JournalOpen => 7,
            Refusal::NoBundle => 7,
            Refusal::Store(_) => 7,
        }
    }

    fn text(&self) -> Line {
        match self {
            Refusal::Damaged { damaged, tiles } => damaged_line(*damaged, *tiles),
            Refusal::JournalOpen => plain_line(b"JournalOpen"),
            Refusal::NoBundle => plain_line(b"NoBundle"),
            Refusal::Store(refusal) => program_ends::Refusal::text(refusal),
        }
    }
}

/// The text of tiles that are damaged.
fn damaged_line(damaged: u32, tiles: u32) -> Line
    ensures text { result ≡ damaged_text damaged tiles }
    ensures short { length result ≤ 190 }
{
    let mut line = Line::new();
    add_two(&mut line, b"damaged:", damaged.into(), b" of", tiles.into());
    line.text(b" tiles");
    line
}

/// The text of a refusal that is a name.
fn plain_line(name: &[u8]) -> Line
    requires { length name.now ≤ 20 }
    ensures text { result ≡ plain_text name.now }
    ensures short { length result ≤ 190 }
{
    let mut line = Line::new();
    line.text(b"store: ");
    line.text(name);
    line
}

/// A stop of the store, as one of the program.
pub(crate) fn store_stop(stop: Stop<StoreRefusal>) -> Stop<Refusal>
    ensures { result ≡ with_store stop }
{
    match stop {
        Stop::Usage => Stop::Usage,
        Stop::Source => Stop::Source,
        Stop::Output => Stop::Output,
        Stop::Volume => Stop::Volume,
        Stop::OutOfMemory => Stop::OutOfMemory,
        Stop::Refused(refusal) => Stop::Refused(Refusal::Store(refusal)),
    }
}

/// Why an audit ends before its totals, as a stop of the program.
pub(crate) fn audit_stop(stop: AuditStop) -> Stop<Refusal>
    ensures { result ≡ audit_stop_of stop }
{
    match stop {
        AuditStop::Output => Stop::Output,
        AuditStop::OutOfMemory => Stop::OutOfMemory,
    }
}
