//! How far a collector is with the work of a phase.

ghost use Rattle.std.specs.Prelude.{◌≡◌};

use object_memory::Monitor;

/// The most checks of one word that fail: after them it is copied in one event.
pub const MOST_FAILED_CHECKS: u32 = 3;

/// The stage of an attempt to copy a word.
#[derive(Clone, Copy, PartialEq, Eq)]
pub enum Stage {
    /// Nothing is loaded yet.
    Begins,
    /// The word was loaded from the old copy.
    Loaded,
    /// What was loaded, or its forward, was stored in the new copy. Next it is checked that the old copy still has what was loaded.
    Stored,
}

/// An attempt of a collector to copy the next word by a load, a store and a check.
#[derive(Clone, Copy, PartialEq, Eq)]
pub struct Attempt {
    pub stage: Stage,
    /// The monitor that was loaded, where the word is a monitor.
    pub monitor: Monitor,
    /// The word that was loaded, where it is that of a slot.
    pub word: u64,
    /// The number of failed checks of this word.
    pub failed_checks: u32,
}

impl Attempt {
    ghost use Rattle.collector.specs.Attempts.{no_attempt};

    /// No attempt is under way, and no check has failed.
    pub fn none() -> Attempt
        ensures { result ≡ no_attempt }
    {
        Attempt {
            stage: Stage::Begins,
            monitor: Monitor::Free,
            word: 0,
            failed_checks: 0,
        }
    }
}

/// How far a collector is with the work of the phase that is posted. It has done nothing of a phase when it posts it.
#[derive(Clone, Copy, PartialEq, Eq)]
pub struct Progress {
    /// Whether it has marked what the static fields refer to, in this cycle.
    pub scanned_statics: bool,
    /// How many slots of the oldest grey object it has scanned.
    pub scanned_slots: u32,
    /// How many words lie before the next object that it looks at: of the old block while it makes and fills copies, of the new one
    /// while it takes marks off.
    pub cursor: u32,
    /// How many words of that object it has copied: the monitor comes first, and then the slots.
    pub copied_words: u32,
    /// Its attempt to copy the next word.
    pub attempt: Attempt,
    /// How many static fields it has flipped.
    pub flipped_statics: u32,
}

impl Progress {
    ghost use Rattle.collector.specs.Phases.{no_progress};

    /// Nothing is done.
    pub fn none() -> Progress
        ensures { result ≡ no_progress }
    {
        Progress {
            scanned_statics: false,
            scanned_slots: 0,
            cursor: 0,
            copied_words: 0,
            attempt: Attempt::none(),
            flipped_statics: 0,
        }
    }
}
