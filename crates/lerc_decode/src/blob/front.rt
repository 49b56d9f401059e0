//! The key and the version, and then the whole header, each once its bytes are there.

ghost use Rattle.std.specs.Prelude.{◌≡◌, ◌≤◌, IfOk, IfErr, length, take};
ghost use Rattle.lerc_header.specs.Head.{HeadAt, head_length};
ghost use Rattle.lerc_header.specs.HeadFaults.{HasKey, HasVersion, field_faults, key_faults};

use lerc_header::{BlobFault, Header, Version, read_header, read_version};

/// The version that stands behind the key.
pub(crate) fn version_at(bytes: &[u8]) -> Result<Version, BlobFault>
    requires { 10 ≤ length bytes.now }
    ensures ok { IfOk result (λ v. HasKey (take 10 bytes.now)
        × HasVersion (take 10 bytes.now) v) }
    ensures fault { IfErr result (λ f. key_faults (take 10 bytes.now) f.place f.reason) }
{
    read_version(&bytes[..10])
}

/// The header of this version.
pub(crate) fn header_at(version: Version, bytes: &[u8]) -> Result<Header, BlobFault>
    requires long { length bytes.now ≡ head_length version }
    requires key { HasKey bytes.now }
    requires version { HasVersion bytes.now version }
    ensures ok { IfOk result (λ h. HeadAt bytes.now h) }
    ensures fault { IfErr result (λ f. field_faults version bytes.now f.place f.reason) }
{
    read_header(bytes)
}
