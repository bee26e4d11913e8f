//! What holds of every picture. The function has an empty body, and its contract is the law.

ghost use Rattle.run_picture.specs.Laws.{EventsHaveOneRow};

/// The number of each event in the window is in exactly one row.
pub fn each_event_is_in_one_row()
    ensures { EventsHaveOneRow }
{}
