//! Laws of the definitions, for the crates above. Each function does nothing: its contract is the
//! law.

ghost use Rattle.std.specs.Prelude.{◌≡◌, ℕ, ◌+◌, ◌<◌, ◌≤◌, ◌⊎◌, ◌++◌, List, length, take, drop};
ghost use Rattle.first_fault.specs.Parts.{IsSingle, IsEmpty, HasFault, AreBytes};
ghost use Rattle.lerc_header.specs.declared.fault.BlobReason.{BlobReason};
ghost use Rattle.lerc_header.specs.declared.fault.BlobReason.TheVariants.{Truncated};
ghost use Rattle.lerc_header.specs.declared.header.Header.{Header};
ghost use Rattle.lerc_header.specs.declared.header.Version.{Version};
ghost use Rattle.lerc_header.specs.Head.{HeadAt, head_length};
ghost use Rattle.lerc_header.specs.HeadFaults.{HasKey, HasVersion, key_faults, field_faults, header_faults};
ghost use Rattle.lerc_header.specs.Written.{IsHeader, field_bytes, head_bytes};

/// Bytes begin with one header at most.
pub fn bytes_have_one_header()
    ensures { (bytes : List ℕ) (g h : Header) → HeadAt bytes g → HeadAt bytes h → g ≡ h }
{}

/// Bytes have one first fault at most, and so have key and version, and the other fields.
pub fn bytes_have_one_first_fault()
    ensures header { (bytes : List ℕ) → IsSingle (header_faults bytes) }
    ensures key { (bytes : List ℕ) → IsSingle (key_faults bytes) }
    ensures fields { (v : Version) (bytes : List ℕ) → IsSingle (field_faults v bytes) }
{}

/// Bytes that begin with a header have no fault of it.
pub fn headers_have_no_fault()
    ensures header { (bytes : List ℕ) (h : Header) → HeadAt bytes h →
        IsEmpty (header_faults bytes) }
    ensures key { (bytes : List ℕ) (v : Version) → HasKey bytes → HasVersion bytes v →
        IsEmpty (key_faults bytes) }
    ensures fields { (bytes : List ℕ) (h : Header) → HeadAt bytes h →
        IsEmpty (field_faults h.version bytes) }
{}

/// Any bytes begin with a header or have a first fault.
pub fn bytes_have_a_header_or_a_fault()
    ensures { (bytes : List ℕ) → ((h : Header) × HeadAt bytes h) ⊎ HasFault (header_faults bytes) }
{}

/// Any bytes have a key and a version or a fault of them; and where these stand and as many bytes
/// are there as the version's header has, they are a header or have a fault of its fields.
pub fn fields_stand_or_fail()
    ensures key { (bytes : List ℕ) →
        ((v : Version) × (HasKey bytes × HasVersion bytes v)) ⊎ HasFault (key_faults bytes) }
    ensures fields { (v : Version) (bytes : List ℕ) → HasKey bytes → HasVersion bytes v →
        head_length v ≤ length bytes →
        ((h : Header) × (HeadAt bytes h × (h.version ≡ v))) ⊎ HasFault (field_faults v bytes) }
{}

/// The numbers of a header that bytes begin with pass every test.
pub fn headers_of_bytes_are_headers()
    ensures { (bytes : List ℕ) (h : Header) → AreBytes bytes → HeadAt bytes h → IsHeader h }
{}

/// A header is decided by its own bytes: more of them behind it, or fewer, are not looked at.
pub fn headers_depend_on_their_bytes()
    ensures more { (bytes more : List ℕ) (h : Header) → HeadAt bytes h → HeadAt (bytes ++ more) h }
    ensures less { (bytes more : List ℕ) (h : Header) → head_length h.version ≤ length bytes →
        HeadAt (bytes ++ more) h → HeadAt bytes h }
{}

/// More bytes have the same first fault, but for bytes that were cut; and all bytes that end
/// within a header are cut at their length.
pub fn first_faults_stay()
    ensures more { (bytes more : List ℕ) (place : ℕ) (reason : BlobReason) →
        ¬ (reason ≡ Truncated) → header_faults bytes place reason →
        header_faults (bytes ++ more) place reason }
    ensures key { (bytes more : List ℕ) (place : ℕ) (reason : BlobReason) →
        10 ≤ length bytes → key_faults bytes place reason →
        key_faults (bytes ++ more) place reason }
    ensures fields { (v : Version) (bytes more : List ℕ) (place : ℕ) (reason : BlobReason) →
        head_length v ≤ length bytes → field_faults v bytes place reason →
        field_faults v (bytes ++ more) place reason }
    ensures cut { (bytes : List ℕ) (h : Header) (n : ℕ) → HeadAt bytes h →
        n < head_length h.version → header_faults (take n bytes) n Truncated }
{}

/// The bytes of a header are as many as its version says, the header stands on them, whatever
/// follows, and those behind the checksum do not depend on it.
pub fn head_bytes_are_a_header()
    ensures length { (h : Header) → length (head_bytes h) ≡ head_length h.version }
    ensures stand { (h : Header) (rest : List ℕ) → IsHeader h → HeadAt (head_bytes h ++ rest) h }
    ensures covered { (h : Header) → drop 14 (head_bytes h) ≡ field_bytes h }
    ensures checksum { (h : Header) (sum : ℕ) →
        field_bytes (record h { checksum = sum }) ≡ field_bytes h }
{}
