//! Pixels of a window that are marked, counted.

ghost use Rattle.std.specs.Prelude.{◌≡◌, ◌+◌, ◌*◌, ◌≤◌, length};
ghost use Rattle.raster_values.specs.inside.Windows.{IsWithin, window_places};

use crate::blocks::window::Window;
use raster_cells::MarkSource;

/// How many pixels of a window are marked. Whole rows are one run.
pub(crate) fn count_rows<M: MarkSource>(marks: &M, window: Window) -> usize
    requires few { length (M.marks marks.now) ≤ 16777216 }
    requires within { IsWithin window (length (M.marks marks.now)) }
    ensures value { result ≡ length (window_places window (M.marks marks.now)) }
    ensures within { result ≤ window.high * window.wide }
{
    if window.wide == window.cols {
        return marks.count_run(window.row * window.cols, window.high * window.cols);
    }
    let mut n = 0;
    for i in window.row..window.row + window.high {
        n += marks.count_run(i * window.cols + window.col, window.wide);
    }
    n
}
