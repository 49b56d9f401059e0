//! Recovering and opening the sources.

ghost use Rattle.std.specs.Prelude.{◌≡◌, IsTrue, IfErr, IfOk, All, false, length};
ghost use Rattle.outside_io.specs.declared.volume.VolFile.TheVariants.{Bundle};
ghost use Rattle.outside_io.specs.volume.History.{contents, current};
ghost use Rattle.opened_bundle.specs.Left.{IsShut};
ghost use Rattle.bundle_store.specs.Causes.{CountsDevice, UnlessDevice};
ghost use Rattle.bundle_pack.specs.Files.{all_bundles, all_files, files_in};
ghost use Rattle.bundle_pack.specs.Opening.{StandsLeft};
ghost use Rattle.bundle_pack.specs.Refusals.{OpeningAnswers};
ghost use Rattle.bundle_pack.specs.Sources.{DeviceAt, Each, EachShut, IsServing, RecoversAlone, SourceMoves};
ghost use Rattle.bundle_pack.specs.inside.Turns.{OpenAnswers, OpenSays, OpeningSays};

use crate::PackFault;
use crate::fault::source_fault;
use bundle_store::{Session, StoreFault, recover};
use outside_io::Volume;
use std::alloc::Global;

/// Makes whole what a crash left of one source, and opens it.
pub(crate) fn open_one<V: Volume>(alloc: Global, vol: &mut V) -> Result<Session, StoreFault>
    ensures kept { RecoversAlone V.told V.history vol.old vol.new }
    ensures says { IsTrue (V.told vol.old) → OpenSays (files_in (V.history vol.old)) result
        (contents Bundle (V.history vol.new)) }
    ensures left { IsTrue (V.told vol.old) → UnlessDevice result
        (StandsLeft (V.history vol.old) (V.history vol.new)) }
    ensures shut { IsTrue (V.told vol.old) → IfOk result (λ _. IsShut (current
        (V.history vol.new))) }
    ensures running { IfOk result (λ s. s.stopped ≡ false) }
    ensures answers { IfErr result (λ f. OpenAnswers f) }
    ensures counted { CountsDevice result (V.faults vol.old) (V.faults vol.new) }
{
    match recover(vol) {
        Ok(_) => {}
        Err(fault) => return Err(fault),
    }
    Session::open(alloc, vol)
}

/// The same of each source, in their order.
pub(crate) fn open_sources<V: Volume>(
    alloc: Global,
    from: &mut [V],
) -> Result<Vec<Session>, PackFault>
    ensures sources { Each (λ i v w.
        SourceMoves V.told V.history V.faults (DeviceAt result i) v w) from.old from.new }
    ensures shut { EachShut V.told V.history result from.old from.new }
    ensures serving { IfOk result (λ sessions.
        IsServing V.told V.history sessions.items from.new) }
    ensures says { All (λ v. IsTrue (V.told v)) from.old → OpeningSays
        (all_files V.history from.old) result (all_bundles V.history from.new) }
    ensures answers { IfErr result (λ f. OpeningAnswers (length from.old) f) }
{
    let mut sessions = Vec::new(alloc);
    for at in 0..from.len() {
        match open_one(alloc, &mut from[at]) {
            Ok(session) => match sessions.push(session) {
                Ok(()) => {}
                Err(_) => return Err(PackFault::OutOfMemory),
            },
            Err(fault) => return Err(source_fault(at, fault)),
        }
    }
    Ok(sessions)
}
