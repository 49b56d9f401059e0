//! Keywords and numbers by their texts.

ghost use Rattle.std.specs.Prelude.{◌≡◌, ◌↔◌, ◌≤◌, ◌<◌, ◌∷◌, drop, MatchBool, IfSome, ℕ, ℤ, List, Some, IsTrue, All, length, neg_ℤ, pos, FitsSigned};
ghost use Rattle.std.specs.Int.{w64};
ghost use Rattle.std.specs.Str.Parse.{digits_value};
ghost use Rattle.outside_io.specs.program.Word.{IsDigit};
ghost use Rattle.ascii_grid.specs.Head.{BeginsWithLetter, AreDigits, IsInteger, IsKey, IsText, IsTextByte};
ghost use Rattle.ascii_grid.specs.declared.words.Key.{Key};

/// A keyword.
#[derive(Clone, Copy)]
pub enum Key {
    Cols,
    Rows,
    XCorner,
    XCenter,
    YCorner,
    YCenter,
    Cell,
    Nodata,
}

/// The keyword that the word is, in any case of letters.
pub(crate) fn key_of(word: &[u8]) -> Option<Key>
    ensures { (key : Key) → (result ≡ Some key) ↔ IsKey word.now key }
{
    if word.eq_ignore_ascii_case(b"ncols") {
        return Some(Key::Cols);
    }
    if word.eq_ignore_ascii_case(b"nrows") {
        return Some(Key::Rows);
    }
    if word.eq_ignore_ascii_case(b"xllcorner") {
        return Some(Key::XCorner);
    }
    if word.eq_ignore_ascii_case(b"xllcenter") {
        return Some(Key::XCenter);
    }
    if word.eq_ignore_ascii_case(b"yllcorner") {
        return Some(Key::YCorner);
    }
    if word.eq_ignore_ascii_case(b"yllcenter") {
        return Some(Key::YCenter);
    }
    if word.eq_ignore_ascii_case(b"cellsize") {
        return Some(Key::Cell);
    }
    if word.eq_ignore_ascii_case(b"nodata_value") {
        return Some(Key::Nodata);
    }
    None
}

/// Whether the word begins with a letter.
pub(crate) fn begins_with_letter(word: &[u8]) -> bool
    ensures { IsTrue result ↔ BeginsWithLetter word.now }
{
    match word {
        [first, ..] => first.is_ascii_alphabetic(),
        [] => false,
    }
}

/// Whether the bytes are a corner or cell text.
pub(crate) fn is_text(bytes: &[u8]) -> bool
    ensures { IsTrue result ↔ IsText bytes.now }
{
    !bytes.is_empty() && bytes.len() <= 32 && are_text_bytes(bytes)
}

/// Whether each byte may stand in a corner or cell text.
pub(crate) fn are_text_bytes(bytes: &[u8]) -> bool
    ensures { IsTrue result ↔ All IsTextByte bytes.now }
{
    for byte in bytes {
        if !is_text_byte(*byte) {
            return false;
        }
    }
    true
}

fn is_text_byte(byte: u8) -> bool
    ensures { IsTrue result ↔ IsTextByte byte }
{
    byte.is_ascii_digit()
        || byte == b'+'
        || byte == b'-'
        || byte == b'.'
        || byte == b'e'
        || byte == b'E'
}

/// The number that digits stand for, where all the bytes are digits.
#[inline]
fn digits_of(digits: &[u8]) -> Option<u64>
    requires { length digits.now ≤ 10 }
    ensures value { (n : ℕ) → (result ≡ Some n)
        ↔ (All IsDigit digits.now × (digits_value 10 digits.now ≡ n)) }
    ensures below { IfSome result (λ n. n < 10000000000) }
{
    let mut value = 0;
    for digit in digits {
        if !digit.is_ascii_digit() {
            return None;
        }
        value = value * 10 + u64::from(*digit - b'0');
    }
    Some(value)
}

/// The number that the digits stand for, where they are digits, one to ten.
#[inline]
fn natural_of(digits: &[u8]) -> Option<u64>
    ensures value { (n : ℕ) → (result ≡ Some n) ↔ AreDigits digits.now n }
    ensures below { IfSome result (λ n. n < 10000000000) }
{
    if digits.is_empty() || digits.len() > 10 {
        return None;
    }
    digits_of(digits)
}

/// Whether the bytes begin with a `-`.
#[inline]
fn begins_with_minus(bytes: &[u8]) -> bool
    ensures { MatchBool result (bytes.now ≡ 45 ∷ drop 1 bytes.now)
        ((rest : List ℕ) → bytes.now ≡ 45 ∷ rest → ⊥) }
{
    match bytes {
        [first, ..] => *first == b'-',
        [] => false,
    }
}

/// The number itself, with a sign.
#[inline]
fn signed_of(n: u64) -> i64
    requires { n < 10000000000 }
    ensures { result ≡ pos n }
{
    n as i64
}

/// The number below 0 that is as far from it.
#[inline]
fn negative_of(n: u64) -> i64
    requires { n < 10000000000 }
    ensures { result ≡ neg_ℤ (pos n) }
{
    -(n as i64)
}

/// The number that the bytes stand for: one to ten digits, behind a `-` or not.
#[inline]
pub(crate) fn integer_of(bytes: &[u8]) -> Option<i64>
    ensures value { (z : ℤ) → (result ≡ Some z) ↔ IsInteger bytes.now z }
    ensures fits { IfSome result (λ z. FitsSigned w64 z) }
{
    if begins_with_minus(bytes) {
        match natural_of(&bytes[1..]) {
            Some(n) => Some(negative_of(n)),
            None => None,
        }
    } else {
        match natural_of(bytes) {
            Some(n) => Some(signed_of(n)),
            None => None,
        }
    }
}
