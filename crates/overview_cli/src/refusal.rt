//! The program's own reasons for a stop, beside those of any program.

ghost use Rattle.std.specs.Prelude.{◌≡◌, ◌+◌, ◌≤◌, ◌++◌, length};
ghost use Rattle.overview_cli.specs.Names.{at_place, band_name_of, fault_text, large_text, much_text, overview_stop_of, with_store};

use lerc_grammar::{BandReason, BandsFault};
use opened_bundle::{StoreRefusal, add_one, add_two};
use outside_io::Line;
use overview_updates::OverviewStop;
use program_ends::Stop;
use reason_names::blob_name;

/// Why the program refuses what it was given. Rows and columns are those of a tile of the bundle
/// that is read.
#[derive(Clone, Copy)]
pub enum Refusal {
    /// The tile in this row and column is not the blobs of bands: its first fault. Its status is 2,
    /// as that of the next two.
    BadTile {
        row: u64,
        col: u64,
        fault: BandsFault,
    },
    /// The tile in this row and column has another number of bands, another type or another shape
    /// than the first of its four.
    Unlike {
        row: u64,
        col: u64,
    },
    /// The tile in this row and column, the first of its four, has more than one depth, which
    /// version 3 has no place for.
    DepthNeedsV4 {
        row: u64,
        col: u64,
    },
    /// The blobs of coarse tile number `at` have so many bytes together, more than a tile may have.
    /// Its status is 7, as that of the rest.
    TileTooLarge {
        at: u64,
        len: u64,
    },
    /// The blobs up to those of coarse tile number `at` have more than 2^30 bytes together.
    KeptTooMuch {
        at: u64,
    },
    /// The store of one of the bundles refuses.
    Store(StoreRefusal),
}

impl program_ends::Refusal for Refusal {
    ghost use Rattle.overview_cli.specs.Names.{refusal_status, refusal_text};

    ghost status = { refusal_status };

    ghost text = { refusal_text };

    fn status(&self) -> u8 {
        match self {
            Refusal::BadTile { .. } => 2,
            Refusal::Unlike { .. } => 2,
            Refusal::DepthNeedsV4 { .. } => 2,
            Refusal::TileTooLarge { .. } => 7,
            Refusal::KeptTooMuch { .. } => 7,
            Refusal::Store(_) => 7,
        }
    }

    fn text(&self) -> Line {
        match self {
            Refusal::BadTile { row, col, fault } => fault_line(*row, *col, *fault),
            Refusal::Unlike { row, col } => place_line(b"Unlike", *row, *col),
            Refusal::DepthNeedsV4 { row, col } => place_line(b"DepthNeedsV4", *row, *col),
            Refusal::TileTooLarge { at, len } => large_line(*at, *len),
            Refusal::KeptTooMuch { at } => much_line(*at),
            Refusal::Store(refusal) => program_ends::Refusal::text(refusal),
        }
    }
}

/// The name of a reason that a tile is refused for.
fn band_name(reason: BandReason) -> &'static [u8]
    ensures name { result.now ≡ band_name_of reason }
    ensures short { length result.now ≤ 30 }
{
    match reason {
        BandReason::Blob(reason) => blob_name(reason),
        BandReason::BadBand => b"BadBand",
    }
}

/// The text of a tile that is refused, with its row and column.
fn place_line(name: &[u8], row: u64, col: u64) -> Line
    requires { length name.now ≤ 20 }
    ensures text { result ≡ at_place name.now row col }
    ensures short { length result ≤ 80 }
{
    let mut line = Line::new();
    line.text(b"refused: ");
    add_two(&mut line, name, row, b"", col);
    line
}

/// The text of a tile that is not the blobs of bands.
fn fault_line(row: u64, col: u64, fault: BandsFault) -> Line
    ensures text { result ≡ fault_text row col fault }
    ensures short { length result ≤ 190 }
{
    let mut line = place_line(b"BadTile", row, col);
    line.text(b" ");
    line.text(band_name(fault.reason));
    line.text(b" at");
    line.number(fault.place);
    line
}

/// The text of a coarse tile whose blobs have too many bytes.
fn large_line(at: u64, len: u64) -> Line
    ensures text { result ≡ large_text at len }
    ensures short { length result ≤ 190 }
{
    let mut line = Line::new();
    line.text(b"store: ");
    add_two(&mut line, b"TileTooLarge", at, b" size", len);
    line
}

/// The text of coarse tiles whose blobs have too many bytes together.
fn much_line(at: u64) -> Line
    ensures text { result ≡ much_text at }
    ensures short { length result ≤ 190 }
{
    let mut line = Line::new();
    line.text(b"store: ");
    add_one(&mut line, b"KeptTooMuch", at);
    line
}

/// A stop of one of the bundles, as one of the program.
pub(crate) fn store_stop(stop: Stop<StoreRefusal>) -> Stop<Refusal>
    ensures { result ≡ with_store stop }
{
    match stop {
        Stop::Usage => Stop::Usage,
        Stop::Source => Stop::Source,
        Stop::Output => Stop::Output,
        Stop::Volume => Stop::Volume,
        Stop::OutOfMemory => Stop::OutOfMemory,
        Stop::Refused(refusal) => Stop::Refused(Refusal::Store(refusal)),
    }
}

/// Why a bundle has no overview, as a stop of the program.
pub(crate) fn overview_stop(stop: OverviewStop) -> Stop<Refusal>
    ensures { result ≡ overview_stop_of stop }
{
    match stop {
        OverviewStop::Beyond { slot, entry, got } => {
            Stop::Refused(Refusal::Store(StoreRefusal::Beyond {
                row: slot.row().into(),
                col: slot.col().into(),
                entry,
                got,
            }))
        }
        OverviewStop::BadTile { slot, fault } => Stop::Refused(Refusal::BadTile {
            row: slot.row().into(),
            col: slot.col().into(),
            fault,
        }),
        OverviewStop::Unlike { slot } => Stop::Refused(Refusal::Unlike {
            row: slot.row().into(),
            col: slot.col().into(),
        }),
        OverviewStop::DepthNeedsV4 { slot } => Stop::Refused(Refusal::DepthNeedsV4 {
            row: slot.row().into(),
            col: slot.col().into(),
        }),
        OverviewStop::TileTooLarge { at, len } => {
            Stop::Refused(Refusal::TileTooLarge { at, len })
        }
        OverviewStop::KeptTooMuch { at } => Stop::Refused(Refusal::KeptTooMuch { at }),
        OverviewStop::Volume => Stop::Volume,
        OverviewStop::OutOfMemory => Stop::OutOfMemory,
    }
}
