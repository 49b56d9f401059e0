//! What is told of a refusal: its status, and the line of the names of its reasons and their
//! numbers.

ghost use Rattle.std.specs.Prelude.{◌≡◌, ◌+◌, ◌≤◌, ◌++◌, length};
ghost use Rattle.lerc_cli.specs.answers.Names.{blob_numbers_of, fault_text, name_of, stream_text};

use crate::refusal::{Fault, Reason, Refusal, StreamRefusal};
use lerc_header::BlobReason;
use opened_bundle::{add_one, add_two};
use outside_io::Line;
use reason_names::{blob_name, grid_name};

/// The name of a reason.
fn name(reason: Reason) -> &'static [u8]
    ensures name { result.now ≡ name_of reason }
    ensures short { length result.now ≤ 30 }
{
    match reason {
        Reason::Blob(reason) => blob_name(reason),
        Reason::BadBand => b"BadBand",
        Reason::Grid(reason) => grid_name(reason),
        Reason::Leftover => b"Leftover",
        Reason::DepthNeedsV4 => b"DepthNeedsV4",
        Reason::BadTileMark => b"BadTileMark",
        Reason::BadSlot => b"BadSlot",
    }
}

/// Adds the numbers that did not agree.
fn add_numbers(line: &mut Line, reason: BlobReason)
    requires { length line.old ≤ 100 }
    ensures text { line.new ≡ line.old ++ blob_numbers_of reason }
    ensures short { length line.new ≤ length line.old + 62 }
{
    match reason {
        BlobReason::BadChecksum { stored, computed } => {
            add_two(
                line,
                b" stored",
                stored.into(),
                b" computed",
                computed.into(),
            );
        }
        BlobReason::BadMaskCount { header, counted } => {
            add_two(line, b" header", header.into(), b" counted", counted.into());
        }
        _ => {}
    }
}

/// The text of a refused input.
fn fault_line(fault: Fault) -> Line
    ensures text { result ≡ fault_text fault }
    ensures short { length result ≤ 190 }
{
    let mut line = Line::new();
    line.text(b"refused: ");
    line.text(name(fault.reason));
    line.text(b" at");
    line.number(fault.place);
    match fault.reason {
        Reason::Blob(reason) => add_numbers(&mut line, reason),
        _ => {}
    }
    line
}

/// The text of tiles that the store does not take.
fn stream_line(refusal: StreamRefusal) -> Line
    ensures text { result ≡ stream_text refusal }
    ensures short { length result ≤ 190 }
{
    let mut line = Line::new();
    line.text(b"store: ");
    match refusal {
        StreamRefusal::TileTooLarge { at, len } => {
            add_two(&mut line, b"TileTooLarge", at, b" size", len);
        }
        StreamRefusal::TooManyTiles => line.text(b"TooManyTiles"),
        StreamRefusal::KeptTooMuch { at } => add_one(&mut line, b"KeptTooMuch", at),
    }
    line
}

impl program_ends::Refusal for Refusal {
    ghost use Rattle.lerc_cli.specs.answers.Names.{refusal_status, refusal_text};

    ghost status = { refusal_status };

    ghost text = { refusal_text };

    fn status(&self) -> u8 {
        match self {
            Refusal::Input(_) => 2,
            Refusal::Store(_) => 7,
            Refusal::Stream(_) => 7,
        }
    }

    fn text(&self) -> Line {
        match self {
            Refusal::Input(fault) => fault_line(*fault),
            Refusal::Store(refusal) => program_ends::Refusal::text(refusal),
            Refusal::Stream(refusal) => stream_line(*refusal),
        }
    }
}
