//! The lines of what a sample comes to.

ghost use Rattle.std.specs.Prelude.{◌≡◌};
ghost use Rattle.lerc_cli.specs.answers.Samples.{sums_lines};

use super::outline::add_number;
use outside_io::Line;
use sample_tiles::Sums;

/// The four lines of a sample.
pub fn sums_text(sums: Sums) -> Line
    ensures { result ≡ sums_lines sums }
{
    let mut line = Line::new();
    add_number(&mut line, b"tiles", sums.tiles.into());
    add_number(&mut line, b"bytes", sums.bytes);
    add_number(&mut line, b"worst", sums.worst);
    add_number(&mut line, b"sum", sums.checksums.into());
    line
}
