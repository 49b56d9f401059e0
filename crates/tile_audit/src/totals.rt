//! The totals of an audit.

ghost use Rattle.std.specs.Prelude.{◌≡◌, ◌+◌, ◌*◌, ◌≤◌};

/// The totals of an audit. A tile is counted by one verdict.
#[derive(Clone, Copy, Debug, PartialEq, Eq)]
pub struct Totals {
    /// How many tiles there are.
    pub tiles: u32,
    /// How many bytes they have.
    pub bytes: u64,
    pub whole: u32,
    pub summed: u32,
    pub foreign: u32,
    pub unread: u32,
    pub damaged: u32,
    /// How many pixels the bands of those have that are whole.
    pub pixels: u64,
    ghost few: { tiles ≤ 16384 },
    ghost few_bytes: { bytes ≤ 4294967295 * tiles },
    ghost few_pixels: { pixels ≤ 16777216 * tiles },
    ghost each: { whole + summed + foreign + unread + damaged ≡ tiles },
}
