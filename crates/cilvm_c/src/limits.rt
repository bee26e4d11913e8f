//! The limits of a session, as a host gives them.

ghost use Rattle.std.specs.Prelude.{◌≡◌};
ghost use Rattle.cilvm_c.specs.InitialStates.{run_limits};

use cil_model::limits::Limits;

/// The limits of a session. Those of the machine have ranges (outside them: 401); what may be printed has none.
#[repr(C)]
#[derive(Clone, Copy)]
pub struct HostLimits {
    /// The words of the first space.
    pub words: u32,
    /// The most words that a space may grow to.
    pub max_words: u32,
    /// The steps that each thread may make.
    pub budget: u32,
    /// The frames that each thread may have.
    pub depth: u32,
    /// The bytes that the program may print. Once more are printed, no event is done.
    pub printed: usize,
}

/// The limits of the machine.
pub(crate) fn run_limits(limits: &HostLimits) -> Limits
    ensures { result ≡ run_limits limits.now }
{
    Limits {
        words: limits.words,
        max_words: limits.max_words,
        budget: limits.budget,
        depth: limits.depth,
    }
}
