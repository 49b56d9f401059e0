//! A law of the definitions, for the crates above. The function does nothing: its contract is the
//! law.

ghost use Rattle.std.specs.Prelude.{◌≡◌, List, Result};
ghost use Rattle.opened_bundle.specs.Files.{Files};
ghost use Rattle.bundle_pack.specs.declared.fault.PackFault.{PackFault};
ghost use Rattle.bundle_pack.specs.declared.packing.PackReport.{PackReport};
ghost use Rattle.bundle_pack.specs.Packing.{IsFree, PackSays};

/// No two answers of packing say something that holds of the same files, but that a volume failed
/// or memory was refused. So each other answer comes exactly where the files say so.
pub fn packings_have_one_answer()
    ensures { (sources : List Files) (target : Files) (one two : Result PackReport PackFault) →
        PackSays sources target one → PackSays sources target two → ¬ IsFree one → ¬ IsFree two →
        one ≡ two }
{}
