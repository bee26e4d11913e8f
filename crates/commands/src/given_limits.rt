//! The limits that a command line gives.

ghost use Rattle.std.specs.Prelude.{◌≡◌};
ghost use Rattle.commands.specs.GivenLimits.{default_limits, limits_for, limits_over};

use cil_model::limits::Limits;
use run_files::RunFile;

/// The words of the first space where no other number is given.
pub const DEFAULT_WORDS: u32 = 65_536;

/// The steps of a thread where no other number is given.
pub const DEFAULT_BUDGET: u32 = 100_000;

/// The frames of a thread where no other number is given.
pub const DEFAULT_DEPTH: u32 = 64;

/// The limits that a command line gives. The others are those of a recorded run, or the defaults.
#[derive(Clone, Copy)]
pub struct GivenLimits {
    /// The words of the first space.
    pub words: Option<u32>,
    /// The most words that a space may grow to.
    pub max_words: Option<u32>,
    /// The steps that each thread may make.
    pub budget: Option<u32>,
    /// The frames that each thread may have.
    pub depth: Option<u32>,
}

impl GivenLimits {
    /// The limits of a replay, a trace or a picture: each that is not given is that of the recorded run, or the default where nothing is known of that run. Where
    /// the words of the first space are given and the most words of a space are not, these are the same.
    pub fn limits_for(self, expected: Option<RunFile>) -> Limits
        ensures { result ≡ limits_for self expected }
    {
        match expected {
            Some(file) => self.limits_over(file.limits),
            None => self.limits_over(default_limits()),
        }
    }

    /// These limits, and others in place of those that are not given.
    fn limits_over(self, others: Limits) -> Limits
        ensures { result ≡ limits_over self others }
    {
        let most = self.words.unwrap_or(others.max_words);
        Limits {
            words: self.words.unwrap_or(others.words),
            max_words: self.max_words.unwrap_or(most),
            budget: self.budget.unwrap_or(others.budget),
            depth: self.depth.unwrap_or(others.depth),
        }
    }
}

/// The limits where none are given.
fn default_limits() -> Limits
    ensures { result ≡ default_limits }
{
    Limits {
        words: DEFAULT_WORDS,
        max_words: DEFAULT_WORDS,
        budget: DEFAULT_BUDGET,
        depth: DEFAULT_DEPTH,
    }
}
