//! In what a run differs from what a `.run` file says.

ghost use Rattle.std.specs.Prelude.{◌≡◌};
ghost use Rattle.run_files.specs.Differences.{differences_of, is_same_limits};

use crate::file::RunFile;
use cil_model::limits::Limits;

/// In what a run differs from what a `.run` file says. The number of workers is no difference.
#[derive(Clone, Copy)]
pub struct Differences {
    /// The source is another one: it has another checksum.
    pub source: bool,
    /// Some limit is another one.
    pub limits: bool,
    /// What was printed is another text: it has another checksum.
    pub output: bool,
}

/// In what a run differs from what is said of another one. Whether it differs in anything at all is whether the `.run` files of both, with
/// equal workers, are equal (`Differences` in `specs`).
pub fn compare(expected: &RunFile, found: &RunFile) -> Differences
    ensures { result ≡ differences_of expected.now found.now }
{
    Differences {
        source: expected.source != found.source,
        limits: !is_same_limits(expected.limits, found.limits),
        output: expected.output != found.output,
    }
}

fn is_same_limits(one: Limits, other: Limits) -> bool
    ensures { result ≡ is_same_limits one other }
{
    one.words == other.words
        && one.max_words == other.max_words
        && one.budget == other.budget
        && one.depth == other.depth
}
