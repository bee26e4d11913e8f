//! What a command line asks for.
ghost use Rattle.std.specs.Prelude.{◌≡◌, option_map};
ghost use Rattle.commands.specs.Orders.{counts, file_of, is_explained, record_file_of, schedule_file_of, with_run_file};

use crate::extents::Extent;
use crate::given_limits::GivenLimits;
use crate::part::Part;
use crate::run::Run;
use cil_model::limits::Limits;
use flip_stress::Sizes;
use run_files::RunFile;

/// A command with its files and options, each default filled in. With `explain`, a refusal is reported with its location and its rule, and a run
/// that ends with live threads with where they are and what they wait for.
#[derive(Clone, Copy)]
pub enum Order<'a> {
    /// Says whether the source of this file is accepted.
    Check {
        file: &'a str,
        explain: bool,
    },
    /// Runs a source, and prints what the run leaves.
    Run(Run<'a>),
    /// Runs it as a replay does, within the same limits, and prints a line of each event before what the run leaves. The run is not compared.
    Trace {
        file: &'a str,
        schedule: &'a str,
        limits: GivenLimits,
        expected: Option<RunFile>,
        explain: bool,
    },
    /// Runs it as a replay does, within the same limits, and draws a part of its events in place of what the run has printed. The run is not
    /// compared.
    Picture {
        file: &'a str,
        schedule: &'a str,
        part: Part,
        limits: GivenLimits,
        expected: Option<RunFile>,
        explain: bool,
    },
    /// Explores all schedules of the source of this file, and prints each outcome with a schedule. Where a file is named, it is to get the
    /// schedule of the first outcome with a blocked thread, with a thread that ended early, or with other printed bytes than the first one.
    Explore {
        file: &'a str,
        extent: Extent,
        save: Option<&'a str>,
        limits: Limits,
        explain: bool,
    },
    /// Tries the flip without a lock, by threads.
    Flip(Sizes),
}

impl<'a> Order<'a> {
    /// The file that holds the source, where one does.
    pub fn file(&self) -> Option<&'a str>
        ensures { option_map (λ file. file.now) result ≡ file_of self.now }
    {
        match *self {
            Order::Run(run) => Some(run.file),
            Order::Check { file, .. }
            | Order::Trace { file, .. }
            | Order::Picture { file, .. }
            | Order::Explore { file, .. } => Some(file),
            Order::Flip(_) => None,
        }
    }

    /// Whether a refusal, and what threads wait for when a run has ended, is to be explained.
    pub fn is_explained(&self) -> bool
        ensures { result ≡ is_explained self.now }
    {
        match *self {
            Order::Run(run) => run.explain,
            Order::Check { explain, .. }
            | Order::Trace { explain, .. }
            | Order::Picture { explain, .. }
            | Order::Explore { explain, .. } => explain,
            Order::Flip(_) => false,
        }
    }

    /// The file that holds the schedule's text, where one does. If it has a `.run` file, that is to be read too.
    pub fn schedule_file(&self) -> Option<&'a str>
        ensures { option_map (λ file. file.now) result ≡ schedule_file_of self.now }
    {
        match *self {
            Order::Run(run) => run.kind.schedule_file(),
            Order::Trace { schedule, .. } | Order::Picture { schedule, .. } => Some(schedule),
            Order::Check { .. } | Order::Explore { .. } | Order::Flip(_) => None,
        }
    }

    /// Whether the numbers of a run are printed at its end.
    pub fn counts(&self) -> bool
        ensures { result ≡ counts self.now }
    {
        match *self {
            Order::Run(run) => run.stats,
            Order::Check { .. }
            | Order::Trace { .. }
            | Order::Picture { .. }
            | Order::Explore { .. }
            | Order::Flip(_) => false,
        }
    }

    /// A replay, a trace or a picture of which it is known what the `.run` file says. Another command stays as it is.
    pub fn with_run_file(self, known: RunFile) -> Order<'a>
        ensures { result ≡ with_run_file self.entry known }
    {
        match self {
            Order::Run(run) => Order::Run(run.with_run_file(known)),
            Order::Trace {
                file,
                schedule,
                limits,
                explain,
                ..
            } => Order::Trace {
                file,
                schedule,
                limits,
                expected: Some(known),
                explain,
            },
            Order::Picture {
                file,
                schedule,
                part,
                limits,
                explain,
                ..
            } => Order::Picture {
                file,
                schedule,
                part,
                limits,
                expected: Some(known),
                explain,
            },
            other => other,
        }
    }

    /// The file that the record of a run or the schedule of an outcome is to be written to, where one is asked for.
    pub fn record_file(&self) -> Option<&'a str>
        ensures { option_map (λ file. file.now) result ≡ record_file_of self.now }
    {
        match *self {
            Order::Run(run) => run.kind.record_file(),
            Order::Explore { save, .. } => save,
            Order::Check { .. } | Order::Trace { .. } | Order::Picture { .. } | Order::Flip(_) =>
                None,
        }
    }
}
