//! Laws of overviews, for the crates above: a bundle has one list of updates or one refusal. The
//! function does nothing: its contract is the laws.

ghost use Rattle.overview_updates.specs.Laws.{OverviewOrStop, OverviewsAreOnce, StopsAreOnce};

/// A bundle has one list of updates of its overview at most, or one first refusal, and not both.
pub fn overviews_have_one_answer()
    ensures updates { OverviewsAreOnce }
    ensures either { OverviewOrStop }
    ensures stops { StopsAreOnce }
{}
