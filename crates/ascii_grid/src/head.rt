//! The head of an ASCII grid: pairs of a keyword and a value.

ghost use Rattle.std.specs.Prelude.{◌≡◌, ◌↔◌, ◌++◌, ◌∷◌, ◌*◌, ◌<◌, ◌≤◌, [], ℕ, ℤ, pos, List, IfOk, IfErr, IfSome, IfNone, OnOk, IsTrue, false};
ghost use Rattle.ascii_grid.specs.Tokens.{TokenAt};
ghost use Rattle.ascii_grid.specs.Head.{HasAll, IsInteger, IsText, IsValue, Pair, Says, text_faults, value_faults};
ghost use Rattle.ascii_grid.specs.inside.Heads.{HeadRead, IsFair, Keeps, SizeStops, has_five, has_key, missing};
ghost use Rattle.ascii_grid.specs.inside.Reading.{Left};
ghost use Rattle.ascii_grid.specs.Stopping.{CountsStop};
ghost use Rattle.ascii_grid.specs.declared.words.Key.{Key};

use crate::fault::{AsciiReason, AsciiStop, stop};
use crate::token::{Token, demand};
use crate::window::Window;
use crate::words::{Key, begins_with_letter, integer_of, is_text, key_of};
use outside_io::Source;
use raster_values::GREATEST_VALUES;

/// What the pairs so far say.
#[derive(Drop)]
pub(crate) struct Head {
    pub(crate) cols: Option<u64>,
    pub(crate) rows: Option<u64>,
    pub(crate) x: Option<Token>,
    pub(crate) x_centre: bool,
    pub(crate) y: Option<Token>,
    pub(crate) y_centre: bool,
    pub(crate) cell: Option<Token>,
    pub(crate) nodata: Option<i64>,
}

impl Head {
    /// Whether the quantity of the key is there.
    fn has(&self, key: Key) -> bool
        ensures { result ≡ has_key self.now key }
    {
        match key {
            Key::Cols => self.cols.is_some(),
            Key::Rows => self.rows.is_some(),
            Key::XCorner | Key::XCenter => self.x.is_some(),
            Key::YCorner | Key::YCenter => self.y.is_some(),
            Key::Cell => self.cell.is_some(),
            Key::Nodata => self.nodata.is_some(),
        }
    }

    /// Whether every quantity but nodata is there.
    fn has_all(&self) -> bool
        ensures { result ≡ has_five self.now }
    {
        if self.cols.is_none() || self.rows.is_none() {
            return false;
        }
        if self.x.is_none() || self.y.is_none() {
            return false;
        }
        self.cell.is_some()
    }
}

/// The number as a size, which is above 0.
fn size_from(number: i64) -> Option<u64>
    ensures some { IfSome result (λ n. (number ≡ pos n) × (0 < n)) }
    ensures none { IfNone result ((n : ℕ) → 0 < n → number ≡ pos n → ⊥) }
{
    if number < 1 {
        None
    } else {
        Some(number as u64)
    }
}

/// The size that the bytes say, with which the product is at most 2^24 where the other is there.
fn size_of(bytes: &[u8], other: Option<u64>) -> Result<u64, AsciiReason>
    ensures ok { IfOk result (λ n. IsInteger bytes.now (pos n) × ((0 < n)
        × IfSome other (λ m. n * m ≤ 16777216))) }
    ensures err { IfErr result (λ reason. SizeStops other bytes.now reason) }
{
    let Some(number) = integer_of(bytes) else {
        return Err(AsciiReason::BadNumber);
    };
    let Some(size) = size_from(number) else {
        return Err(AsciiReason::BadSize);
    };
    if let Some(other) = other {
        if size as u128 * other as u128 > GREATEST_VALUES as u128 {
            return Err(AsciiReason::TooLarge);
        }
    }
    Ok(size)
}

/// The token again, which is a corner or cell text.
fn text_of(value: Token) -> Result<Token, AsciiReason>
    ensures ok { IfOk result (λ t. (t ≡ value) × IsText value.bytes) }
    ensures err { IfErr result (λ reason. text_faults value value.place reason) }
{
    if is_text(value.bytes()) {
        Ok(value)
    } else {
        Err(AsciiReason::BadText)
    }
}

/// Takes the value of a key of which the quantity was not there.
fn take_value(head: &mut Head, key: Key, value: Token) -> Result<(), AsciiReason>
    requires new { has_key head.old key ≡ false }
    ensures kept { (ps : List Pair) (word : TokenAt) → Keeps head.old ps → OnOk result
        (Keeps head.new (ps ++ record { word = word; key = key; value = value } ∷ [])) }
    ensures stands { (ps : List Pair) → Keeps head.old ps
        → OnOk result (IsValue ps key value.bytes) }
    ensures err { (ps : List Pair) → Keeps head.old ps → IfErr result
        (λ reason. value_faults ps key value value.place reason) }
    ensures fewer { OnOk result (missing head.new < missing head.old) }
    ensures fair { IsFair head.old → OnOk result (IsFair head.new) }
{
    match key {
        Key::Cols => head.cols = Some(size_of(value.bytes(), head.rows)?),
        Key::Rows => head.rows = Some(size_of(value.bytes(), head.cols)?),
        Key::XCorner => {
            head.x = Some(text_of(value)?);
            head.x_centre = false;
        }
        Key::XCenter => {
            head.x = Some(text_of(value)?);
            head.x_centre = true;
        }
        Key::YCorner => {
            head.y = Some(text_of(value)?);
            head.y_centre = false;
        }
        Key::YCenter => {
            head.y = Some(text_of(value)?);
            head.y_centre = true;
        }
        Key::Cell => head.cell = Some(text_of(value)?),
        Key::Nodata => match integer_of(value.bytes()) {
            Some(number) => head.nodata = Some(number),
            None => return Err(AsciiReason::BadNumber),
        },
    }
    Ok(())
}

/// Reads the pairs, and the first token behind them.
pub(crate) fn read_head<S: Source>(
    src: &mut S,
    window: &mut Window,
) -> Result<(Head, Token), AsciiStop>
    ensures read { (total : ℕ) (tokens : List TokenAt)
        → Left (S.left src.old) window.old total tokens
        → HeadRead result (S.left src.new) window.new total tokens }
    ensures fair { IfOk result (λ r. IsFair r.0 × IsTrue (has_five r.0)) }
    ensures counted { CountsStop result (S.faults src.old) (S.faults src.new) }
{
    let mut head = Head {
        cols: None,
        rows: None,
        x: None,
        x_centre: false,
        y: None,
        y_centre: false,
        cell: None,
        nodata: None,
    };
    loop {
        let word = demand(src, window)?;
        if !begins_with_letter(word.bytes()) {
            if head.has_all() {
                return Ok((head, word));
            }
            return Err(stop(AsciiReason::Missing, word.place()));
        }
        let Some(key) = key_of(word.bytes()) else {
            return Err(stop(AsciiReason::BadKey, word.place()));
        };
        if head.has(key) {
            return Err(stop(AsciiReason::Repeated, word.place()));
        }
        let value = demand(src, window)?;
        let place = value.place();
        if let Err(reason) = take_value(&mut head, key, value) {
            return Err(stop(reason, place));
        }
    }
}
