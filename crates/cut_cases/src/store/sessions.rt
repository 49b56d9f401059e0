//! Sessions on volumes, and why a work on one ended before its end.

ghost use Rattle.std.specs.Prelude.{◌≡◌, false, IfOk, IsTrue};
ghost use Rattle.outside_io.specs.declared.volume.VolFile.TheVariants.{Bundle};
ghost use Rattle.outside_io.specs.volume.History.{contents, current};
ghost use Rattle.bundle_store.specs.Session.{IsReadyToPut, Serves};

use bundle_store::{Session, StoreFault, recover};
use case_rows::CaseStop;
use outside_io::Volume;
use std::alloc::{AllocError, AllocFailed, Global};

/// Why a work ended before its end.
#[derive(Drop)]
pub(crate) enum Ended {
    Fault(StoreFault),
    Case(CaseStop),
}

impl From<StoreFault> for Ended {
    fn from(fault: StoreFault) -> Self {
        Ended::Fault(fault)
    }
}

impl From<CaseStop> for Ended {
    fn from(stop: CaseStop) -> Self {
        Ended::Case(stop)
    }
}

impl From<AllocError> for Ended {
    fn from(_: AllocError) -> Self {
        Ended::Case(CaseStop::OutOfMemory)
    }
}

impl<T: Drop> From<AllocFailed<T>> for Ended {
    fn from(_: AllocFailed<T>) -> Self {
        Ended::Case(CaseStop::OutOfMemory)
    }
}

/// The text of what came out, or of the fault.
pub(crate) fn text_of(alloc: Global, answer: Result<Vec<u8>, Ended>) -> Result<Vec<u8>, CaseStop> {
    match answer {
        Ok(text) => Ok(text),
        Err(Ended::Fault(fault)) => Ok(format!(in alloc; "{fault:?}")?.into_bytes()),
        Err(Ended::Case(stop)) => Err(stop),
    }
}

/// A session on the volume as it stands.
pub(crate) fn open_session<V: Volume>(alloc: Global, vol: &mut V) -> Result<Session, StoreFault>
    ensures running { IfOk result (λ s. s.stopped ≡ false) }
    ensures serves { IsTrue (V.told vol.new) →
        IfOk result (λ s. Serves s (contents Bundle (V.history vol.new))) }
{
    Session::open(alloc, vol)
}

/// A session on the volume, once it is recovered.
pub(crate) fn recover_session<V: Volume>(alloc: Global, vol: &mut V) -> Result<Session, StoreFault>
    ensures running { IfOk result (λ s. s.stopped ≡ false) }
    ensures ready { IsTrue (V.told vol.new) →
        IfOk result (λ s. IsReadyToPut s (current (V.history vol.new))) }
{
    recover(vol)?;
    Session::open(alloc, vol)
}
