//! A bundle is checked, with the lines of what was found.

ghost use Rattle.std.specs.Prelude.{◌≡◌, Err};
ghost use Rattle.outside_io.specs.declared.volume.VolFile.TheVariants.{Bundle};
ghost use Rattle.outside_io.specs.streams.Faults.{IsCause};
ghost use Rattle.outside_io.specs.volume.History.{contents};
ghost use Rattle.bundle_lines.specs.Gave.{CheckGave};
ghost use Rattle.bundle_store.specs.Told.{OnlyReads};
ghost use Rattle.bundle_store.specs.Serving.{Serving};

use crate::lines::give_report;
use crate::stop::LineStop;
use bundle_store::Session;
use outside_io::{Sink, Volume};

/// Checks the bundle, and gives the lines of what was found. It takes no memory.
pub fn check_all<V: Volume, K: Sink>(
    session: &Session,
    vol: &mut V,
    out: &mut K,
) -> Result<(), LineStop>
    requires serving { Serving V.told V.history session.now vol.old }
    ensures gave { CheckGave (V.told vol.old) (contents Bundle (V.history vol.old)) result
        (out.new ≡ out.old) (K.held out.old) (K.held out.new) }
    ensures reads { OnlyReads V.told V.history V.faults (IsCause (result ≡ Err LineStop.Volume))
        vol.old vol.new }
    ensures output_failed { IsCause (result ≡ Err LineStop.Output) (K.faults out.old)
        (K.faults out.new) }
{
    match session.check(vol) {
        Ok(report) => match give_report(report, out) {
            Ok(()) => Ok(()),
            Err(_) => Err(LineStop::Output),
        },
        Err(_) => Err(LineStop::Volume),
    }
}
