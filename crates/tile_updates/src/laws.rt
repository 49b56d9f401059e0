//! Laws of the definitions, for the crates above. Each function does nothing: its contract is the
//! law.

ghost use Rattle.tile_updates.specs.Laws.{StopsAreOnce, StreamsAreDecided, UpdatesAreOnce, UpdatesOrStop};

/// An input has one list of updates at most.
pub fn inputs_have_one_list_of_updates()
    ensures { UpdatesAreOnce }
{}

/// An input has updates or a first refusal, not both, and one refusal at most.
pub fn inputs_have_one_answer()
    ensures decided { StreamsAreDecided }
    ensures either { UpdatesOrStop }
    ensures once { StopsAreOnce }
{}
