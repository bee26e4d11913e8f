//! Which events are drawn.

ghost use Rattle.std.specs.Prelude.{◌≡◌};
ghost use Rattle.run_picture.specs.Windows.{clamp, is_in_window};

/// The most events that a picture has.
pub const MOST_EVENTS: usize = 20_000;

/// The events that are drawn, by the numbers of the first and the last one, from 1.
#[derive(Clone, Copy)]
pub struct Window {
    /// The number of the first event that is drawn.
    pub first: usize,
    /// The number of the last one.
    pub last: usize,
}

impl Window {
    /// The first of these events, at most `MOST_EVENTS`.
    pub(crate) fn clamp(self) -> Window
        ensures { result ≡ clamp self }
    {
        Window {
            first: self.first,
            last: self.last.min(self.first.saturating_add(MOST_EVENTS - 1)),
        }
    }

    /// Whether the event of this number, from 0, is drawn.
    pub(crate) fn has(self, number: usize) -> bool
        ensures { result ≡ is_in_window self number }
    {
        self.first.saturating_sub(1) <= number && number < self.last
    }
}
