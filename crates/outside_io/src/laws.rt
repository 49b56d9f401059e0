//! Laws of files and of what a crash leaves of them.

ghost use Rattle.std.specs.Prelude.{◌≡◌, ℕ, List};
ghost use Rattle.outside_io.specs.volume.Disk.{AreBytes, IsImage, settled};

/// The law of a file of which nothing is pending: a crash leaves of it what a read gives, and
/// nothing else.
pub fn settled_has_one_image()
    ensures image { (bytes : List ℕ) → AreBytes bytes → IsImage (settled bytes) bytes }
    ensures only { (bytes : List ℕ) (c : List ℕ) → IsImage (settled bytes) c → c ≡ bytes }
{}
