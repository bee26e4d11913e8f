//! What a command line asks of a run.
ghost use Rattle.std.specs.Prelude.{◌≡◌, option_map};
ghost use Rattle.commands.specs.Runs.{kind_with_run_file, record_file_of_kind, run_with_run_file, schedule_file_of_kind};

use crate::given_limits::GivenLimits;
use crate::workers::Workers;
use cil_model::limits::Limits;
use cil_model::stops::StopAt;
use run_files::RunFile;

/// The least bound on the bytes that a program prints.
pub const LEAST_OUTPUT: u32 = 64;

/// The largest bound on the bytes that a program prints.
pub const MOST_OUTPUT: u32 = u32::MAX;

/// A run of the source of a file. With `most_printed` the program prints no more bytes. With `stats`, the numbers of the run are printed at the
/// end.
#[derive(Clone, Copy)]
pub struct Run<'a> {
    pub file: &'a str,
    pub kind: RunKind<'a>,
    pub most_printed: Option<u32>,
    pub explain: bool,
    pub stats: bool,
}

/// Whose events a run has.
#[derive(Clone, Copy)]
pub enum RunKind<'a> {
    /// Those of a schedule text.
    Schedule {
        text: &'a str,
        limits: Limits,
    },
    /// Those of the schedule text that a file holds. Where it is known what the `.run` file of a record says, limits that are not given are those
    /// of that file, and the run is compared with it.
    Replay {
        schedule: &'a str,
        limits: GivenLimits,
        expected: Option<RunFile>,
    },
    /// Those of workers, each in a thread of its own, until no thread of the program is live, or until `stop_at` says. Where a file is named for
    /// the record, it is to get the text of the schedule that the run had.
    Workers {
        workers: Workers,
        record: Option<&'a str>,
        stop_at: StopAt,
        limits: Limits,
    },
}

impl<'a> Run<'a> {
    /// A replay of which it is known what the `.run` file says. Another run stays as it is.
    pub fn with_run_file(self, known: RunFile) -> Run<'a>
        ensures { result ≡ run_with_run_file self.entry known }
    {
        Run {
            kind: self.kind.with_run_file(known),
            ..self
        }
    }
}

impl<'a> RunKind<'a> {
    /// The file that holds the schedule's text, where one does.
    pub fn schedule_file(self) -> Option<&'a str>
        ensures { option_map (λ file. file.now) result ≡ schedule_file_of_kind self.entry }
    {
        match self {
            RunKind::Replay { schedule, .. } => Some(schedule),
            RunKind::Schedule { .. } | RunKind::Workers { .. } => None,
        }
    }

    /// The file that the record of a run is to be written to, where one is asked for.
    pub fn record_file(self) -> Option<&'a str>
        ensures { option_map (λ file. file.now) result ≡ record_file_of_kind self.entry }
    {
        match self {
            RunKind::Workers { record, .. } => record,
            RunKind::Schedule { .. } | RunKind::Replay { .. } => None,
        }
    }

    /// A replay of which it is known what the `.run` file says. Another kind stays as it is.
    fn with_run_file(self, known: RunFile) -> RunKind<'a>
        ensures { result ≡ kind_with_run_file self.entry known }
    {
        match self {
            RunKind::Replay {
                schedule,
                limits,
                ..
            } => RunKind::Replay {
                schedule,
                limits,
                expected: Some(known),
            },
            other => other,
        }
    }
}
