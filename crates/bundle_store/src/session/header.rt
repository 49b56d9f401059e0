//! The header of a bundle is read and tested.

ghost use Rattle.std.specs.Prelude.{◌≡◌, ◌≤◌, length, take, IsTrue, IfOk, IfSome};
ghost use Rattle.outside_io.specs.declared.volume.VolFile.TheVariants.{Bundle};
ghost use Rattle.outside_io.specs.streams.Faults.{CountsFaults};
ghost use Rattle.outside_io.specs.volume.History.{Ticks, contents, current};
ghost use Rattle.bundle_index.specs.Header.{header_fault};
ghost use Rattle.bundle_store.specs.Session.{IsHeaderFault};
ghost use Rattle.bundle_store.specs.Told.{Told};

use bundle_index::{BundleHeader, HeaderFault};
use outside_io::{Failed, VolFile, Volume};

/// The header of a bundle.
pub(crate) fn read_header<V: Volume>(vol: &mut V) -> Result<BundleHeader, Failed>
    requires { IsTrue (V.told vol.old) → 64 ≤ length (contents Bundle (V.history vol.old)) }
    ensures value { IsTrue (V.told vol.old) →
        IfOk result (λ h. h ≡ take 64 (contents Bundle (V.history vol.old))) }
    ensures size { IfOk result (λ h. length h ≡ 64) }
    ensures disk { IsTrue (V.told vol.old) →
        current (V.history vol.new) ≡ current (V.history vol.old) }
    ensures time { Ticks (V.history vol.old) (V.history vol.new) result }
    ensures told { Told V.told V.faults (CountsFaults result) vol.old vol.new }
{
    let mut bytes = [0; 64];
    vol.read(VolFile::Bundle, 0, &mut bytes)?;
    Ok(BundleHeader::of(bytes))
}

/// The first test of a reader that the header fails.
pub(crate) fn fault_of(header: &BundleHeader) -> Option<HeaderFault>
    ensures value { result ≡ header_fault header.now }
    ensures fails { IfSome result (λ f. IsHeaderFault f.place f.found) }
{
    header.fault()
}
