//! The commands that clap reads, with their help.
ghost use Rattle.std.specs.Prelude.{◌≡◌, IfOk, codes, pos};
ghost use Rattle.clap.specs.Words.{App, Rule, app_of, new_app, with_rule, with_subcommand};
ghost use Rattle.clap.specs.declared.builder.value_parser.ValueParser.TheVariants as vp;
ghost use Rattle.command_line.specs.CommandLine.{IsArgument, IsCommand, check_app, cilvm_app, explore_app, file_rule, flag_rule};
ghost use Rattle.command_line.specs.CommandLine.{flip_app, required_rule, number_rule, picture_app, replay_app, run_app, text_rule, threads_app, trace_app, with_default};
ghost use Rattle.command_line.specs.CommandLine.{with_explain, with_files, with_given_limits, with_limits, with_output, with_part, with_print_options, with_required_subcommand, with_run_options, with_runs, with_source, with_stats, with_version, with_views};

use crate::version::VERSION;
use cil_model::limits::{LEAST_WORDS, MOST_BUDGET, MOST_DEPTH, MOST_WORDS};
use clap::builder::ValueParser;
use clap::{Arg, ArgAction, Command, value_parser};
use commands::{LAST_NUMBER, LEAST_OUTPUT, MOST_OUTPUT};
use std::alloc::{AllocError, Global};

/// What the explanation of a check is.
const EXPLAIN_CHECK: &str =
    "After a refusal, shows its location and its rule; after 'accepted', notes on the source";

/// What the explanation of a run is.
const EXPLAIN_RUN: &str =
    "After a refusal, shows its location and its rule; after a run, what its live threads wait for";

const EXPLAIN_EXPLORATION: &str =
    "After a refusal, shows its location and its rule; draws the schedule of each outcome in columns";

/// The greatest value of `--states`.
pub(crate) const MOST_STATES: u32 = 1_000_000;

/// The greatest value of `--preemptions`.
pub(crate) const MOST_PREEMPTIONS: u32 = 1000;

fn file_argument<'a>(alloc: Global, id: &'a str, name: &'a str, help: &'a str) -> Arg<'a>
    ensures { IsArgument (file_rule id.entry.now) result }
{
    Arg::new(alloc, id)
        .required(true)
        .value_name(name)
        .help(help)
}

/// An option that takes a text.
fn text_option<'a>(alloc: Global, id: &'a str, name: &'a str, help: &'a str) -> Arg<'a>
    ensures { IsArgument (text_rule id.entry.now) result }
{
    Arg::new(alloc, id).long(id).value_name(name).help(help)
}

/// An option whose text has to be given.
fn needed_text<'a>(alloc: Global, id: &'a str, name: &'a str, help: &'a str) -> Arg<'a>
    ensures { IsArgument (required_rule (text_rule id.entry.now)) result }
{
    text_option(alloc, id, name, help).required(true)
}

fn number_option<'a>(alloc: Global, id: &'a str, least: u32, most: u32, help: &'a str) -> Arg<'a>
    ensures { IsArgument (number_rule id.entry.now least most) result }
{
    text_option(alloc, id, "N", help).value_parser(number_parser(least, most))
}

/// What takes a number in a range.
fn number_parser<'a>(least: u32, most: u32) -> ValueParser<'a>
    ensures { result ≡ vp.Signed (pos least) (pos most) }
{
    value_parser!(u32).range(i64::from(least)..=i64::from(most))
}

/// An option that has to be given.
fn needed_number<'a>(alloc: Global, id: &'a str, least: u32, most: u32, help: &'a str) -> Arg<'a>
    ensures { IsArgument (required_rule (number_rule id.entry.now least most)) result }
{
    number_option(alloc, id, least, most, help).required(true)
}

/// An option that has a default.
fn limit_option<'a>(
    alloc: Global,
    id: &'a str,
    least: u32,
    most: u32,
    default: &'a str,
    help: &'a str,
) -> Arg<'a>
    ensures { IsArgument (with_default default.entry.now (number_rule id.entry.now least most)) result }
{
    number_option(alloc, id, least, most, help).default_value(default)
}

/// An option that takes nothing.
fn flag<'a>(alloc: Global, id: &'a str, help: &'a str) -> Arg<'a>
    ensures { IsArgument (flag_rule id.entry.now) result }
{
    Arg::new(alloc, id)
        .long(id)
        .action(ArgAction::SetTrue)
        .help(help)
}

/// A command with an argument more. An error is the command's own.
fn with_argument<'a>(
    command: Result<Command<'a>, AllocError>,
    argument: Arg<'a>,
) -> Result<Command<'a>, AllocError>
    ensures { (app : App) (rule : Rule) → IfOk command.entry (IsCommand app) → IsArgument rule argument.entry → IfOk result (IsCommand (with_rule app rule)) }
{
    let Ok(command) = command else {
        return Err(AllocError);
    };
    command.arg(argument)
}

/// The option that has a refusal explained, and what threads wait for where a run ends with live ones.
fn with_explain<'a>(
    alloc: Global,
    command: Result<Command<'a>, AllocError>,
    help: &'a str,
) -> Result<Command<'a>, AllocError>
    ensures { (app : App) → IfOk command.entry (IsCommand app) → IfOk result (IsCommand (with_explain app)) }
{
    with_argument(command, flag(alloc, "explain", help))
}

/// The option that has the numbers of a run printed.
fn with_stats<'a>(
    alloc: Global,
    command: Result<Command<'a>, AllocError>,
) -> Result<Command<'a>, AllocError>
    ensures { (app : App) → IfOk command.entry (IsCommand app) → IfOk result (IsCommand (with_stats app)) }
{
    with_argument(
        command,
        flag(
            alloc,
            "stats",
            "At the end, prints the numbers of the run on the standard error, as 'events: 5'",
        ),
    )
}

/// A command without arguments: what it does, and what its help ends with.
fn new_command<'a>(alloc: Global, name: &'a str, about: &'a str, after_help: &'a str) -> Command<'a>
    ensures { IsCommand (new_app name.entry.now) result }
{
    Command::new(alloc, name)
        .about(about)
        .after_help(after_help)
}

/// A command that takes a source from a file.
fn source_command<'a>(
    alloc: Global,
    name: &'a str,
    about: &'a str,
    after_help: &'a str,
) -> Result<Command<'a>, AllocError>
    ensures { IfOk result (IsCommand (with_source name.entry.now)) }
{
    let command = new_command(alloc, name, about, after_help);
    command.arg(file_argument(alloc, "file", "FILE", "The source, in ilasm text"))
}

/// A command that takes a source and a schedule, each from a file.
fn with_files<'a>(
    alloc: Global,
    name: &'a str,
    about: &'a str,
    after_help: &'a str,
) -> Result<Command<'a>, AllocError>
    ensures { IfOk result (IsCommand (with_files name.entry.now)) }
{
    let command = source_command(alloc, name, about, after_help);
    with_argument(
        command,
        file_argument(alloc, "schedule", "SCHEDULE", "The file with the events"),
    )
}

fn with_limits<'a>(
    alloc: Global,
    command: Result<Command<'a>, AllocError>,
) -> Result<Command<'a>, AllocError>
    ensures { (app : App) → IfOk command.entry (IsCommand app) → IfOk result (IsCommand (with_limits app)) }
{
    let words = limit_option(
        alloc,
        "words",
        LEAST_WORDS,
        MOST_WORDS,
        "65536",
        "Words of 64 bits in the first space, 64 to 1048576",
    );
    let command = with_argument(command, words);
    let most = number_option(
        alloc,
        "max-words",
        LEAST_WORDS,
        MOST_WORDS,
        "The most words that a space may grow to, 64 to 1048576; those of --words where none is given",
    );
    let command = with_argument(command, most);
    let budget = limit_option(
        alloc,
        "budget",
        1,
        MOST_BUDGET,
        "100000",
        "Steps that each thread may take, 1 to 1000000",
    );
    let command = with_argument(command, budget);
    let depth = limit_option(
        alloc,
        "depth",
        1,
        MOST_DEPTH,
        "64",
        "Calls that a thread may have open, 1 to 256",
    );
    with_argument(command, depth)
}

/// The option of the most bytes that a program prints.
fn with_output<'a>(
    alloc: Global,
    command: Result<Command<'a>, AllocError>,
) -> Result<Command<'a>, AllocError>
    ensures { (app : App) → IfOk command.entry (IsCommand app) → IfOk result (IsCommand (with_output app)) }
{
    let most = text_option(
        alloc,
        "output",
        "BYTES",
        "The most bytes that the program may print, 64 to 4294967295; no limit if none is given",
    );
    with_argument(
        command,
        most.value_parser(number_parser(LEAST_OUTPUT, MOST_OUTPUT)),
    )
}

/// The limits of a replay, a trace or a picture, whose defaults are those of the recorded run where that is known.
fn with_given_limits<'a>(
    alloc: Global,
    command: Result<Command<'a>, AllocError>,
) -> Result<Command<'a>, AllocError>
    ensures { (app : App) → IfOk command.entry (IsCommand app) → IfOk result (IsCommand (with_given_limits app)) }
{
    let words = number_option(
        alloc,
        "words",
        LEAST_WORDS,
        MOST_WORDS,
        "Words of 64 bits in the first space, 64 to 1048576; those of SCHEDULE.run, or 65536, where none is given",
    );
    let command = with_argument(command, words);
    let most = number_option(
        alloc,
        "max-words",
        LEAST_WORDS,
        MOST_WORDS,
        "The most words that a space may grow to, 64 to 1048576; those of --words, or of SCHEDULE.run, where none is given",
    );
    let command = with_argument(command, most);
    let budget = number_option(
        alloc,
        "budget",
        1,
        MOST_BUDGET,
        "Steps that each thread may take, 1 to 1000000; those of SCHEDULE.run, or 100000, where none is given",
    );
    let command = with_argument(command, budget);
    let depth = number_option(
        alloc,
        "depth",
        1,
        MOST_DEPTH,
        "Calls that a thread may have open, 1 to 256; those of SCHEDULE.run, or 64, where none is given",
    );
    with_argument(command, depth)
}

/// The options of what a run prints: the most bytes of its program, and its numbers.
fn with_print_options<'a>(
    alloc: Global,
    command: Result<Command<'a>, AllocError>,
) -> Result<Command<'a>, AllocError>
    ensures { (app : App) → IfOk command.entry (IsCommand app) → IfOk result (IsCommand (with_print_options app)) }
{
    with_stats(alloc, with_output(alloc, command))
}

/// The options of a run: what is explained of it, and its limits.
fn with_run_options<'a>(
    alloc: Global,
    command: Result<Command<'a>, AllocError>,
    explanation: &'a str,
) -> Result<Command<'a>, AllocError>
    ensures { (app : App) → IfOk command.entry (IsCommand app) → IfOk result (IsCommand (with_run_options app)) }
{
    with_limits(alloc, with_explain(alloc, command, explanation))
}

fn check_command<'a>(alloc: Global) -> Result<Command<'a>, AllocError>
    ensures { IfOk result (IsCommand check_app) }
{
    let command = source_command(
        alloc,
        "check",
        "Says whether a source is accepted",
        "Example:\n  cilvm check examples/add.il",
    );
    with_explain(alloc, command, EXPLAIN_CHECK)
}

/// The command of a run by workers, which also reads a command line that names a source in place of a command.
pub fn threads_command<'a>(alloc: Global) -> Result<Command<'a>, AllocError>
    ensures { IfOk result (IsCommand threads_app) }
{
    let command = source_command(
        alloc,
        "threads",
        "Runs a source by workers, each in a thread of its own",
        "Of N workers, number K runs the threads whose numbers leave K when they are divided by N. The record is a schedule: 'cilvm replay FILE RECORD' does the run again, to the same output, with the limits that the file RECORD.run has, which is written beside it. A record has at most 1000000 events.\n\nExample, which prints 5:\n  cilvm threads examples/add.il",
    );
    let workers = limit_option(alloc, "workers", 1, 16, "1", "Workers, 1 to 16");
    let command = with_argument(command, workers);
    let record = text_option(
        alloc,
        "record",
        "RECORD",
        "Writes the events of the run to this file",
    );
    let command = with_argument(command, record);
    let stop = flag(
        alloc,
        "stop-at-deadlock",
        "Stops also once all live threads wait for one another, and explains that",
    );
    let command = with_print_options(alloc, with_argument(command, stop));
    with_run_options(alloc, command, EXPLAIN_RUN)
}

fn run_command<'a>(alloc: Global) -> Result<Command<'a>, AllocError>
    ensures { IfOk result (IsCommand run_app) }
{
    let command = source_command(
        alloc,
        "run",
        "Runs a source by a schedule given on the command line",
        "Events, with spaces between them:\n  s0    a step of thread 0: one instruction\n  a0    its acknowledgement to the collector\n  g     an event of the collector\n  s0*5  five steps; '*' and a count may follow each event\nThe threads have the numbers 0 to 15, and a schedule has at most 1000000 events.\n\nExample, which prints 5:\n  cilvm run examples/add.il --schedule 's0*5'",
    );
    let schedule = needed_text(
        alloc,
        "schedule",
        "EVENTS",
        "The events in their order, as 's0*5 g a0'",
    );
    let command = with_print_options(alloc, with_argument(command, schedule));
    with_run_options(alloc, command, EXPLAIN_RUN)
}

fn replay_command<'a>(alloc: Global) -> Result<Command<'a>, AllocError>
    ensures { IfOk result (IsCommand replay_app) }
{
    let command = with_files(
        alloc,
        "replay",
        "Runs a source by a schedule that a file holds",
        "The file has the events in the form that 'cilvm run --help' describes, on as many lines as you like. Where a file SCHEDULE.run is beside it, as 'cilvm threads --record' writes one, it has the limits of the recorded run, and another source, other limits or another output are reported, with status 6.\n\nExample, which prints 5:\n  cilvm replay examples/add.il examples/add.schedule",
    );
    let command = with_explain(alloc, with_print_options(alloc, command), EXPLAIN_RUN);
    with_given_limits(alloc, command)
}

fn trace_command<'a>(alloc: Global) -> Result<Command<'a>, AllocError>
    ensures { IfOk result (IsCommand trace_app) }
{
    let command = with_files(
        alloc,
        "trace",
        "Replays a schedule, and prints a line of each event",
        "A line has these columns, with tabs between them: the event's number, the event, what was reported of it, the instruction that the thread was at, and then, after the event, the thread's frames, the height of its stack, the words in use in the old space, or the only one, and in the new one, the phase that the collector has posted and the one that the thread has acknowledged. An empty line ends the trace. What the program prints and how its threads stand follow as 'cilvm replay' prints them. Where a file SCHEDULE.run is beside the schedule, it has the limits.\n\nExample:\n  cilvm trace examples/add.il examples/add.schedule",
    );
    with_given_limits(alloc, with_explain(alloc, command, EXPLAIN_RUN))
}

/// The options of a picture: its first and its last event.
fn with_part<'a>(
    alloc: Global,
    command: Result<Command<'a>, AllocError>,
) -> Result<Command<'a>, AllocError>
    ensures { (app : App) → IfOk command.entry (IsCommand app) → IfOk result (IsCommand (with_part app)) }
{
    let first = limit_option(
        alloc,
        "from",
        1,
        LAST_NUMBER,
        "1",
        "The number of the first event that is drawn, from 1",
    );
    let command = with_argument(command, first);
    let last = number_option(
        alloc,
        "to",
        1,
        LAST_NUMBER,
        "The number of the last one; that of the schedule where none is given",
    );
    with_argument(command, last)
}

fn picture_command<'a>(alloc: Global) -> Result<Command<'a>, AllocError>
    ensures { IfOk result (IsCommand picture_app) }
{
    let command = with_files(
        alloc,
        "picture",
        "Replays a schedule, and draws the run as an SVG",
        "The picture has a lane for each thread, with its steps, what it waits for and what it printed, and one for the collector. It shows at most 20000 events; the others are run and not drawn. How the threads stand follows on the standard error as 'cilvm replay' prints it. Where a file SCHEDULE.run is beside the schedule, it has the limits.\n\nExample:\n  cilvm picture examples/add.il examples/add.schedule > add.svg",
    );
    let command = with_part(alloc, command);
    with_given_limits(alloc, with_explain(alloc, command, EXPLAIN_RUN))
}

fn explore_command<'a>(alloc: Global) -> Result<Command<'a>, AllocError>
    ensures { IfOk result (IsCommand explore_app) }
{
    let command = source_command(
        alloc,
        "explore",
        "Finds every outcome of a source over all schedules",
        "A program with threads can end in several ways, depending on which thread happens to go first. 'explore' tries all schedules, and prints each outcome with the schedule that has the fewest preemptions, and of those the fewest steps, for 'cilvm replay'. If the last line says 'of all schedules', it is proved that no schedule ends in any other way, whatever the collector does, as long as no thread uses up its budget.\n\nThe status is 0 if in each outcome all threads are done and the output is the same, 3 if in some outcome a thread ended by a fault or the output differs, 4 if some schedule deadlocks, and 6 if none of these was found, but the search stopped before it had found all outcomes.\n\nExample:\n  cilvm explore examples/deadlock.il",
    );
    let states = limit_option(
        alloc,
        "states",
        1,
        MOST_STATES,
        "100000",
        "The maximum number of states, 1 to 1000000",
    );
    let command = with_argument(command, states);
    let preemptions = number_option(
        alloc,
        "preemptions",
        0,
        MOST_PREEMPTIONS,
        "The maximum number of preemptions of a schedule, 0 to 1000; no limit by default",
    );
    let command = with_argument(command, preemptions);
    let until = text_option(
        alloc,
        "until",
        "GOAL",
        "Stops at the first 'fault', the first 'deadlock', or the first 'output' that differs",
    );
    let command = with_argument(command, until);
    let save = text_option(
        alloc,
        "save",
        "SCHEDULE",
        "Writes the schedule of the first fault, the first deadlock or the first other output to this file",
    );
    with_run_options(alloc, with_argument(command, save), EXPLAIN_EXPLORATION)
}

fn flip_command<'a>(alloc: Global) -> Result<Command<'a>, AllocError>
    ensures { IfOk result (IsCommand flip_app) }
{
    let command = new_command(
        alloc,
        "flip",
        "Tries the copying of slots without a lock, by threads",
        "Each seat is a thread. In each round it stores an object to each of its slots and loads it again, while another thread copies all slots, moves the seats to the copies and retires the first ones. 'kept' counts the loads that gave what was stored, 'retired' the slots whose first copy was retired.\n\nExample, which prints 'kept 24' and 'retired 6':\n  cilvm flip --seats 1 --objects 2 --slots 3 --rounds 4",
    );
    let seats = needed_number(
        alloc,
        "seats",
        1,
        16,
        "Threads that store and load, 1 to 16",
    );
    let command = command.arg(seats);
    let objects = needed_number(alloc, "objects", 1, 256, "Objects, 1 to 256");
    let command = with_argument(command, objects);
    let slots = needed_number(alloc, "slots", 1, 16, "Slots of each object, 1 to 16");
    let command = with_argument(command, slots);
    let rounds = needed_number(
        alloc,
        "rounds",
        0,
        10_000,
        "Stores to each slot, 0 to 10000",
    );
    with_argument(command, rounds)
}

fn program<'a>(alloc: Global) -> Command<'a>
    ensures { app_of result ≡ with_version (with_required_subcommand (new_app (codes "cilvm"))) }
{
    Command::new(alloc, "cilvm")
        .version(VERSION)
        .about("Checks CIL programs, and runs their threads, freely or by a schedule of steps")
        .after_help(
            "'cilvm COMMAND --help' says what a command takes. 'cilvm FILE.il' is short for 'cilvm threads FILE.il'.\n\nExample, which prints 5:\n  cilvm threads examples/add.il",
        )
        .subcommand_required(true)
        .arg_required_else_help(true)
}

/// A program with a command more. An error is that of either.
fn with_command<'a>(
    program: Result<Command<'a>, AllocError>,
    command: Result<Command<'a>, AllocError>,
) -> Result<Command<'a>, AllocError>
    ensures { (app own : App) → IfOk program.entry (λ p. app_of p ≡ app) → IfOk command.entry (IsCommand own) → IfOk result (λ c. app_of c ≡ with_subcommand app own.top) }
{
    let Ok(program) = program else {
        return Err(AllocError);
    };
    let Ok(command) = command else {
        return Err(AllocError);
    };
    program.subcommand(command)
}

/// A program with the commands that check and run a source.
fn with_runs<'a>(
    alloc: Global,
    program: Result<Command<'a>, AllocError>,
) -> Result<Command<'a>, AllocError>
    ensures { (app : App) → IfOk program.entry (λ p. app_of p ≡ app) → IfOk result (λ c. app_of c ≡ with_runs app) }
{
    let program = with_command(program, check_command(alloc));
    let program = with_command(program, threads_command(alloc));
    let program = with_command(program, run_command(alloc));
    with_command(program, replay_command(alloc))
}

/// A program with the commands that show runs.
fn with_views<'a>(
    alloc: Global,
    program: Result<Command<'a>, AllocError>,
) -> Result<Command<'a>, AllocError>
    ensures { (app : App) → IfOk program.entry (λ p. app_of p ≡ app) → IfOk result (λ c. app_of c ≡ with_views app) }
{
    let program = with_command(program, trace_command(alloc));
    let program = with_command(program, picture_command(alloc));
    let program = with_command(program, explore_command(alloc));
    with_command(program, flip_command(alloc))
}

/// The whole command line.
pub fn cilvm_command<'a>(alloc: Global) -> Result<Command<'a>, AllocError>
    ensures { IfOk result (λ c. app_of c ≡ cilvm_app) }
{
    with_views(alloc, with_runs(alloc, Ok(program(alloc))))
}
