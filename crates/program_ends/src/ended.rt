//! What is done as a run ends.

ghost use Rattle.std.specs.Prelude.{◌≡◌, ◌≤◌, ◌++◌, ◌∷◌, [], codes, length};
ghost use Rattle.std.specs.Process.{exit_status};
ghost use Rattle.outside_io.specs.program.Line.{GivesLine};
ghost use Rattle.program_ends.specs.Moves.{sink_move};
ghost use Rattle.program_ends.specs.Stop.{GivesLineOf, line_by, status_at, text_by};

use crate::stop::{Refusal, Stop};
use outside_io::{Line, Sink, give_line};
use std::process::ExitCode;

/// A line of one text.
fn line_of_text(text: &[u8]) -> Line
    requires { length text.now ≤ 190 }
    ensures text { result ≡ text.now }
    ensures short { length result ≤ 190 }
{
    let mut line = Line::new();
    line.text(text);
    line
}

/// The text that says why a run stopped.
fn text<R: Refusal>(usage: &[u8], stop: &Stop<R>) -> Line
    requires { length usage.now ≤ 190 }
    ensures text { result ≡ text_by R.text usage.now stop.now }
    ensures short { length result ≤ 190 }
{
    match stop {
        Stop::Usage => line_of_text(usage),
        Stop::Source => line_of_text(b"source failed"),
        Stop::Output => line_of_text(b"output failed"),
        Stop::Volume => line_of_text(b"volume failed"),
        Stop::OutOfMemory => line_of_text(b"out of memory"),
        Stop::Refused(refusal) => refusal.text(),
    }
}

/// The line that says why a run stopped.
#[tactic(auto, unfolding(crate::specs::Stop::line_by))]
fn stop_line<R: Refusal>(usage: &[u8], stop: &Stop<R>) -> Line
    requires { length usage.now ≤ 190 }
    ensures { result ≡ line_by R.text usage.now stop.now }
{
    let mut line = text(usage, stop);
    line.text(b"\n");
    line
}

/// Gives the line that says why a run stopped to the error output, whose faults change nothing. It
/// takes no memory. The usage text is that of the program.
pub fn tell<R: Refusal, E: Sink>(usage: &[u8], stop: &Stop<R>, err: &mut E)
    requires { length usage.now ≤ 190 }
    ensures { GivesLine (E.held err.old) (E.held err.new) (E.faults err.old) (E.faults err.new)
        (line_by R.text usage.now stop.now) }
{
    give_line(err, &stop_line(usage, stop));
}

/// The status of an end, whose line is given: one of a stop, and none where all went well. The
/// faults of the error output change nothing.
pub fn ended_status<R: Refusal, E: Sink>(
    usage: &[u8],
    ended: &Result<(), Stop<R>>,
    err: &mut E,
) -> u8
    requires { length usage.now ≤ 190 }
    ensures status { result ≡ status_at R.status ended.now }
    ensures line { GivesLineOf R.text usage.now ended.now
        (sink_move E.held E.faults err.old err.new) }
{
    match ended {
        Ok(()) => 0,
        Err(stop) => {
            tell(usage, stop, err);
            stop.status()
        }
    }
}

/// What a program ends with that had no memory to begin: the line of that is all that is given.
pub fn end_without_memory<E: Sink>(err: &mut E) -> ExitCode
    ensures status { exit_status result ≡ 6 }
    ensures line { GivesLine (E.held err.old) (E.held err.new) (E.faults err.old)
        (E.faults err.new) (codes "out of memory" ++ 10 ∷ []) }
{
    let mut line = line_of_text(b"out of memory");
    line.text(b"\n");
    give_line(err, &line);
    exit_code(6)
}

/// What the process ends with.
pub fn exit_code(status: u8) -> ExitCode
    ensures { exit_status result ≡ status }
{
    ExitCode::from(status)
}
