//! How the passes of a worker went, and when it yields, keeps the lock, or looks for a deadlock.

use crate::answer::Answer;
use cil_model::reports::Report;

/// In how many passes of a row in which the collector waits for another worker each is followed by double the yields of the one before.
const PATIENT_PASSES: u32 = 8;

/// In how many passes of such a row in which its threads made progress by local instructions, which take no memory, it yields once, unless it made
/// passes in a row under the lock, after each of which it yields.
const LOCAL_PASSES: u32 = 64;

/// How often a worker that drives no live thread yields after the first pass of a row of them; after each of the next ones twice as often.
const IDLE_YIELDS: u32 = 16;

/// In how many passes of such a row the number of yields is doubled.
const IDLE_DOUBLINGS: u32 = 4;

/// In how many passes of worker 0 in which none of its threads made progress it looks for a deadlock once.
const PASSES_TO_A_LOOK: u32 = 64;

/// The result of a worker's events.
#[derive(Clone, Copy, PartialEq, Eq)]
pub(crate) enum Progress {
    /// A thread or the collector made progress.
    Made,
    /// Threads made progress by local instructions alone, which take no memory, under the lock.
    MadeLocally,
    /// A thread made progress by local instructions, and the lock was given back meanwhile.
    MadeApart,
    /// Each thread that was asked is blocked or absent, and the collector waits.
    None,
    /// Memory did not last.
    OutOfMemory,
}

impl Progress {
    /// The progress that an answer reports.
    pub fn of(answer: Answer) -> Progress {
        match answer {
            Answer::Did(Report::Blocked | Report::Absent | Report::Waiting) => Progress::None,
            Answer::Did(_) => Progress::Made,
            Answer::Away => Progress::None,
            Answer::NoMemory => Progress::OutOfMemory,
        }
    }

    /// This one, and then the next.
    pub fn then(self, next: Progress) -> Progress {
        match (self, next) {
            (Progress::OutOfMemory, _) | (_, Progress::OutOfMemory) => Progress::OutOfMemory,
            (Progress::MadeApart, _) | (_, Progress::MadeApart) => Progress::MadeApart,
            (Progress::None, other) | (other, Progress::None) => other,
            (Progress::MadeLocally, Progress::MadeLocally) => Progress::MadeLocally,
            _ => Progress::Made,
        }
    }

    pub fn lasts(self) -> bool {
        self != Progress::OutOfMemory
    }

    /// Whether threads made progress by local instructions.
    fn is_local(self) -> bool {
        matches!(self, Progress::MadeLocally | Progress::MadeApart)
    }
}

/// The result of a worker's pass.
#[derive(Clone, Copy)]
pub(crate) struct PassOutcome {
    /// The result of all its events.
    pub progress: Progress,
    /// The result of the steps of its threads.
    pub steps: Progress,
    /// Whether it drove a live thread.
    pub is_driving: bool,
    /// Whether the collector waits for a worker that has not acknowledged the posted number.
    pub is_late: bool,
    /// Whether it made passes in a row, for which other workers had to wait.
    pub is_row: bool,
    /// Whether it found no live thread, or the stop mark.
    pub is_last: bool,
}

impl PassOutcome {
    /// A last pass in which nothing was done.
    pub fn nothing() -> PassOutcome {
        PassOutcome {
            progress: Progress::None,
            steps: Progress::None,
            is_driving: false,
            is_late: false,
            is_row: false,
            is_last: true,
        }
    }

    /// Whether the worker makes no pass after it.
    pub fn is_end(&self) -> bool {
        self.is_last || !self.progress.lasts()
    }
}

/// How the passes of a worker went up to now.
#[derive(Clone, Copy)]
pub(crate) struct Pace {
    /// How many passes it made.
    passes: u32,
    /// In how many passes in a row the collector waited for another worker.
    late: u32,
    /// In how many passes in a row none of the worker's threads made progress.
    held_up: u32,
}

impl Pace {
    /// Before the first pass.
    pub fn new() -> Pace {
        Pace {
            passes: 0,
            late: 0,
            held_up: 0,
        }
    }

    /// How many passes the worker made, at most 2^32 - 1.
    pub fn passes(self) -> u32 {
        self.passes
    }

    /// One more pass.
    pub fn note_pass(&mut self, passed: &PassOutcome) {
        self.passes = self.passes.saturating_add(1);
        self.late = if passed.is_late {
            self.late.saturating_add(1)
        } else {
            0
        };
        self.held_up = if passed.steps == Progress::None {
            self.held_up.saturating_add(1)
        } else {
            0
        };
    }

    /// How often one of several workers yields after such a pass. While the collector waits for another worker, it is twice as often after
    /// each pass, for some passes, so that the worker's threads hardly make progress meanwhile.
    pub fn yields(self, passed: &PassOutcome) -> u32 {
        if self.late > 0 && passed.steps.is_local() {
            u32::from(passed.is_row || self.late % LOCAL_PASSES == 0)
        } else if self.late > PATIENT_PASSES {
            1
        } else if self.late > 0 {
            1u32 << self.late
        } else if passed.progress != Progress::None {
            0
        } else if passed.is_driving {
            1
        } else {
            IDLE_YIELDS << self.held_up.min(IDLE_DOUBLINGS)
        }
    }

    /// Whether a worker keeps the lock for its next pass: a worker alone unless its threads are held up, one of several after a pass in which
    /// the lock was given back, if it does not yield.
    pub fn keeps_lock(self, passed: &PassOutcome, workers: u8) -> bool {
        if workers == 1 {
            passed.steps != Progress::None
        } else {
            passed.steps == Progress::MadeApart && self.yields(passed) == 0
        }
    }

    /// Whether to look for a deadlock now.
    pub fn looks(self) -> bool {
        self.held_up % PASSES_TO_A_LOOK == 1
    }
}
