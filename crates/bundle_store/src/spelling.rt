//! Bytes laid over others, and the bytes of an entry.

ghost use Rattle.std.specs.Prelude.{◌≡◌, ◌+◌, ◌≤◌, length};
ghost use Rattle.outside_io.specs.volume.Disk.{laid};
ghost use Rattle.bundle_index.specs.Entry.{IsEntry, entry_bytes};

use bundle_index::Entry;

/// Lays bytes over others from a place on.
pub(crate) fn lay(out: &mut [u8], at: usize, bytes: &[u8])
    requires { at + length bytes.now ≤ length out.old }
    ensures { out.new ≡ laid at bytes.now out.old }
{
    out[at..at + bytes.len()].copy_from_slice(bytes);
}

/// The bytes of an entry.
pub(crate) fn spell_entry(entry: Entry) -> [u8; 8]
    requires { IsEntry entry }
    ensures { result ≡ entry_bytes entry }
{
    entry.pack().to_le_bytes()
}
