//! Runs of bytes: cleared, laid over others, and repeated.

ghost use Rattle.std.specs.Prelude.{◌≡◌, ◌+◌, ◌-◌, ◌≤◌, ◌++◌, length, take, drop, replicate};

/// Sets a run of bytes to 0.
pub fn clear(bytes: &mut [u8], at: usize, count: usize)
    requires { at + count ≤ length bytes.old }
    ensures { bytes.new ≡ take at bytes.old
        ++ (replicate count 0 ++ drop (at + count) bytes.old) }
{
    let run = &mut bytes[at..at + count];
    run.fill(0);
}

/// Lays bytes over as many from `at` on.
pub fn lay(bytes: &mut [u8], at: usize, run: &[u8])
    requires { at + length run.now ≤ length bytes.old }
    ensures { bytes.new ≡ take at bytes.old ++ (run.now ++ drop (at + length run.now) bytes.old) }
{
    let place = &mut bytes[at..at + run.len()];
    place.copy_from_slice(run);
}

/// Lays the bytes from `from` to `end` also over as many from `to` on, which stand behind them.
pub fn repeat(bytes: &mut [u8], from: usize, end: usize, to: usize)
    requires order { from ≤ end }
    requires behind { end ≤ to }
    requires within { to + (end - from) ≤ length bytes.old }
    ensures { bytes.new ≡ take to bytes.old
        ++ (take (end - from) (drop from bytes.old) ++ drop (to + (end - from)) bytes.old) }
{
    let (front, back) = bytes.split_at_mut(to);
    back[..end - from].copy_from_slice(&front[from..end]);
}
