// Laws of the definitions, for the crates above. Each function does nothing: its contract is the
// law.

ghost use Rattle.std.specs.Prelude.{◌≡◌, ◌↔◌, ◌^◌, ◌<◌, ◌++◌, ℕ, List, None, length};
ghost use Rattle.bundle_index.specs.declared.entry.Entry.{Entry};
ghost use Rattle.bundle_index.specs.Entry.{IsEntry, entry_bytes, entry_of, word_of};
ghost use Rattle.bundle_index.specs.Header.{HasFreshFields, HasHeader, IsHeaderAfter, fresh_header, header_after, header_fault};
ghost use Rattle.bundle_index.specs.Numbers.{u32_at, u64_at};

/// An entry is read back from its word, and from its bytes wherever they stand.
pub fn entries_are_read_back()
    ensures word { (e : Entry) → IsEntry e → entry_of (word_of e) ≡ e }
    ensures bytes { (front rest : List ℕ) (e : Entry) → IsEntry e →
        entry_of (u64_at (front ++ (entry_bytes e ++ rest)) (length front)) ≡ e }
{}

/// The header of a new bundle has each of its numbers at its place.
pub fn fresh_headers_have_their_fields()
    ensures { (greatest size : ℕ) → greatest < 2 ^ 32 → size < 2 ^ 64 →
        HasFreshFields (fresh_header greatest size) greatest size }
{}

/// A put changes three numbers of a header, each at its place, and no other byte.
pub fn headers_after_a_put_have_their_fields()
    ensures { (header : List ℕ) (old size long : ℕ) → length header ≡ 64 →
        u32_at header 8 < 2 ^ 32 → size < 2 ^ 32 → long < 2 ^ 64 →
        IsHeaderAfter header old size long (header_after header old size long) }
{}

/// The header of a new bundle passes a reader's tests, whatever stands behind it.
pub fn fresh_headers_pass()
    ensures { (greatest size : ℕ) (rest : List ℕ) → HasHeader (fresh_header greatest size ++ rest) }
{}

/// A header that passes a reader's tests passes them after a put.
pub fn headers_after_a_put_pass()
    ensures { (header : List ℕ) (old size long : ℕ) → length header ≡ 64 → HasHeader header →
        HasHeader (header_after header old size long) }
{}

/// A header has no fault exactly where it passes the three tests.
pub fn headers_pass_or_fail()
    ensures { (bundle : List ℕ) → (header_fault bundle ≡ None) ↔ HasHeader bundle }
{}
