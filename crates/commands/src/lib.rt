//! The commands that `cilvm` carries out: what the arguments ask for, and the files that they name.
//! Files are read whole, a source no further than shows that it is too long.
#![tactic(auto)]

mod extents;
mod files;
mod given_limits;
mod order;
mod part;
mod run;
mod workers;

pub use extents::{Extent, Goal};
pub use files::{read_source, read_text, run_file_name};
pub use given_limits::GivenLimits;
pub use order::Order;
pub use part::{LAST_NUMBER, Part};
pub use run::{LEAST_OUTPUT, MOST_OUTPUT, Run, RunKind};
pub use workers::Workers;
