//! The program's own reason for a stop, beside those of any program.

ghost use Rattle.std.specs.Prelude.{◌≡◌, ◌≤◌, length};
ghost use Rattle.ascii_cli.specs.Names.{name_of, refusal_text, stop_of};

use ascii_grid::{AsciiFault, AsciiReason, AsciiStop};
use outside_io::Line;
use program_ends::Stop;
use reason_names::grid_name;

/// Why the program refuses its input: what is wrong with it first, and where.
#[derive(Clone, Copy)]
pub struct Refusal {
    pub fault: AsciiFault,
}

impl program_ends::Refusal for Refusal {
    ghost use Rattle.ascii_cli.specs.Names.{refusal_status, refusal_text};

    ghost status = { refusal_status };

    ghost text = { refusal_text };

    fn status(&self) -> u8 {
        2
    }

    fn text(&self) -> Line {
        refusal_line(*self)
    }
}

/// The name of a reason.
fn name(reason: AsciiReason) -> &'static [u8]
    ensures name { result.now ≡ name_of reason }
    ensures short { length result.now ≤ 30 }
{
    match reason {
        AsciiReason::Truncated => b"Truncated",
        AsciiReason::BadKey => b"BadKey",
        AsciiReason::Repeated => b"Repeated",
        AsciiReason::Missing => b"Missing",
        AsciiReason::BadText => b"BadText",
        AsciiReason::BadNumber => b"BadNumber",
        AsciiReason::BadSize => b"BadSize",
        AsciiReason::TooLarge => b"TooLarge",
        AsciiReason::OutOfRange => b"OutOfRange",
        AsciiReason::Leftover => b"Leftover",
        AsciiReason::BadMagic => b"BadMagic",
        AsciiReason::BadFlags => b"BadFlags",
        AsciiReason::Collision => b"Collision",
        AsciiReason::DepthNot1 => b"DepthNot1",
        AsciiReason::TooLong => b"TooLong",
        AsciiReason::Grid(why) => grid_name(why),
    }
}

/// The text of a refused input.
fn refusal_line(refusal: Refusal) -> Line
    ensures text { result ≡ refusal_text refusal }
    ensures short { length result ≤ 190 }
{
    let mut line = Line::new();
    line.text(b"refused: ");
    line.text(name(refusal.fault.reason));
    line.text(b" at");
    line.number(refusal.fault.place);
    line
}

/// Why no grid was read, as a stop of the program.
pub(crate) fn input_stop(e: AsciiStop) -> Stop<Refusal>
    ensures { result ≡ stop_of e }
{
    match e {
        AsciiStop::Fault(fault) => Stop::Refused(Refusal { fault }),
        AsciiStop::Source => Stop::Source,
        AsciiStop::OutOfMemory => Stop::OutOfMemory,
    }
}
