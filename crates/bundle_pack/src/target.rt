//! Writing the target.

ghost use Rattle.std.specs.Prelude.{◌≡◌, IsTrue, IfErr, OnOk};
ghost use Rattle.outside_io.specs.volume.History.{During, current};
ghost use Rattle.bundle_store.specs.Build.{EachFits, last_tiles};
ghost use Rattle.bundle_store.specs.Causes.{CountsDevice, OnRefusal};
ghost use Rattle.bundle_store.specs.Images.{HoldsClosed};
ghost use Rattle.bundle_store.specs.Layout.{layout};
ghost use Rattle.bundle_pack.specs.Files.{files_in};
ghost use Rattle.bundle_pack.specs.Opening.{StandsLeft};
ghost use Rattle.bundle_pack.specs.Recovering.{AtMostRecovers};
ghost use Rattle.bundle_pack.specs.inside.Turns.{TargetAnswers, TargetImages, TargetSays};

use crate::sources::open_one;
use bundle_store::{StoreFault, TileRec};
use outside_io::Volume;
use std::alloc::Global;

/// Makes whole what a crash left of the target, opens it, and builds it of the tiles where it is
/// empty.
pub(crate) fn write_target<W: Volume>(
    alloc: Global,
    to: &mut W,
    tiles: &[TileRec],
) -> Result<(), StoreFault>
    requires fits { EachFits tiles.now }
    ensures told { W.told to.new ≡ W.told to.old }
    ensures images { IsTrue (W.told to.old) → TargetImages (files_in (W.history to.old))
        (last_tiles tiles.now) (W.history to.old) (W.history to.new) }
    ensures unpacked { IsTrue (W.told to.old) →
        OnRefusal result (AtMostRecovers (W.history to.old) (W.history to.new)) }
    ensures left { IsTrue (W.told to.old) →
        OnRefusal result (StandsLeft (W.history to.old) (W.history to.new)) }
    ensures done { IsTrue (W.told to.old) → OnOk result (HoldsClosed
        (layout (last_tiles tiles.now)) (current (W.history to.new))) }
    ensures says { IsTrue (W.told to.old) → TargetSays (files_in (W.history to.old)) result }
    ensures answers { IfErr result (λ f. TargetAnswers f) }
    ensures counted { CountsDevice result (W.faults to.old) (W.faults to.new) }
{
    match open_one(alloc, to) {
        Ok(mut session) => session.build(to, tiles),
        Err(fault) => Err(fault),
    }
}
