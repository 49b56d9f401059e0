//! The bundle, opened without a recovery, where there is one to be audited.

ghost use Rattle.std.specs.Prelude.{◌≡◌, ◌≢◌, ◌⊎◌, ◌+◌, ◌<◌, ◌≤◌, [], Err, IfErr, IfOk, IsTrue, OnOk, false, length};
ghost use Rattle.outside_io.specs.declared.volume.VolFile.TheVariants.{Bundle, Journal};
ghost use Rattle.outside_io.specs.streams.Faults.{IsCause};
ghost use Rattle.outside_io.specs.volume.History.{contents};
ghost use Rattle.side_journal.specs.Says.{IsOpen};
ghost use Rattle.bundle_store.specs.Told.{OnlyReads};
ghost use Rattle.opened_bundle.specs.Files.{files_of};
ghost use Rattle.audit_cli.specs.Opening.{IsOpened, OpeningStops, files_at};

use crate::refusal::{Refusal, store_stop};
use bundle_store::Session;
use opened_bundle::{StoreRefusal, stop_from};
use outside_io::{VolFile, Volume};
use program_ends::Stop;
use side_journal::{JournalState, read_journal};
use std::alloc::Global;

/// Whether the journal does not count, so that the bundle may be audited.
fn read_closed<V: Volume>(vol: &mut V) -> Result<(), Stop<Refusal>>
    ensures closed { IsTrue (V.told vol.old) → OnOk result
        (¬ IsOpen (contents Journal (V.history vol.old))) }
    ensures refused { IfErr result (λ stop.
        OpeningStops (files_of (V.told vol.old) (V.history vol.old)) stop) }
    ensures no_want { IfErr result (λ stop. stop ≢ Stop.OutOfMemory) }
    ensures reads { OnlyReads V.told V.history V.faults (IsCause (result ≡ Err Stop.Volume))
        vol.old vol.new }
    ensures calls { (V.history vol.new).moment ≤ (V.history vol.old).moment + 2 }
{
    match read_journal(vol) {
        Ok(JournalState::Closed) => Ok(()),
        Ok(JournalState::Open(_)) => Err(Stop::Refused(Refusal::JournalOpen)),
        Ok(JournalState::Bad { place, found }) => {
            Err(Stop::Refused(Refusal::Store(StoreRefusal::BadJournal { place, found })))
        }
        Err(_) => Err(Stop::Volume),
    }
}

/// The length of the bundle, where there is one.
fn read_length<V: Volume>(vol: &mut V) -> Result<u64, Stop<Refusal>>
    ensures size { IsTrue (V.told vol.old) → IfOk result (λ n. (0 < n)
        × (n ≡ length (contents Bundle (V.history vol.old)))) }
    ensures answers { IfErr result (λ stop. (stop ≡ Stop.Volume)
        ⊎ ((stop ≡ Stop.Refused Refusal.NoBundle)
        × (IsTrue (V.told vol.old) → contents Bundle (V.history vol.old) ≡ []))) }
    ensures reads { OnlyReads V.told V.history V.faults (IsCause (result ≡ Err Stop.Volume))
        vol.old vol.new }
    ensures calls { (V.history vol.new).moment ≤ (V.history vol.old).moment + 1 }
{
    match vol.len(VolFile::Bundle) {
        Ok(0) => Err(Stop::Refused(Refusal::NoBundle)),
        Ok(len) => Ok(len),
        Err(_) => Err(Stop::Volume),
    }
}

/// Opens the bundle, and answers its length, too. It recovers nothing: a journal that counts is
/// refused. In this order Volume for the journal, BadJournal, JournalOpen, Volume for the length,
/// NoBundle, and what `Session::open` answers.
pub(crate) fn open_to_audit<V: Volume>(
    alloc: Global,
    vol: &mut V,
) -> Result<(Session, u64), Stop<Refusal>>
    ensures running { IfOk result (λ opened. opened.0.stopped ≡ false) }
    ensures opened { IsTrue (V.told vol.old) → IfOk result (λ opened. IsOpened opened.0 opened.1
        (files_at (V.history vol.old))) }
    ensures refused { IfErr result (λ stop.
        OpeningStops (files_of (V.told vol.old) (V.history vol.old)) stop) }
    ensures reads { OnlyReads V.told V.history V.faults (IsCause (result ≡ Err Stop.Volume))
        vol.old vol.new }
    ensures calls { (V.history vol.new).moment ≤ (V.history vol.old).moment + 6 }
{
    match read_closed(vol) {
        Ok(()) => {}
        Err(stop) => return Err(stop),
    }
    let len = match read_length(vol) {
        Ok(len) => len,
        Err(stop) => return Err(stop),
    };
    match Session::open(alloc, vol) {
        Ok(session) => Ok((session, len)),
        Err(fault) => Err(store_stop(stop_from(fault))),
    }
}
