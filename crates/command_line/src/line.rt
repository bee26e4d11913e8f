//! Reads the command line.
ghost use Rattle.std.specs.Prelude.{◌≡◌, ◌≤◌, IfErr, IfOk, IfSome, Some, codes, map, option_map, true};
ghost use Rattle.clap.specs.Words.{fault_of, found_of, first_of, kind_of, matches_of, rows_of, subcommand_of, subcommand_rows_of};
ghost use Rattle.command_line.specs.CommandLine.{Answers, AnswersBy, begins_with_source, cilvm_app, is_source_name, threads_app};
ghost use Rattle.command_line.specs.CommandLine.{AreGivenInRange, FaultIs, IsInRange, IsOfNone, IsOutputInRange, IsPartInRange, check_in, limits_in, most_in, output_in};
ghost use Rattle.command_line.specs.CommandLine.{flag_at, number_at, number_in, flip_in, part_in, is_explained_in, picture_in, replay_in, replayed_in, run_in, scheduled_in, stop_at_in, threads_in, trace_in, request_in};
ghost use Rattle.command_line.specs.CommandLine.{explore_in, explored_in, extent_in, given_at, given_in, goal_in, parsed_option, request_of, worked_in};
ghost use Rattle.cil_model.specs.Ranges.{are_numbers_in_range};
ghost use Rattle.command_line.specs.declared.line.LineFault.TheVariants.{Memory};

use crate::clap_commands::{MOST_PREEMPTIONS, MOST_STATES, cilvm_command, threads_command};
use cil_model::limits::{LEAST_WORDS, Limits, MOST_BUDGET, MOST_DEPTH, MOST_WORDS};
use cil_model::stops::StopAt;
use clap::error::ErrorKind;
use clap::{ArgMatches, Error};
use commands::{
    Extent, GivenLimits, Goal, LAST_NUMBER, LEAST_OUTPUT, MOST_OUTPUT, Order, Part, Run, RunKind,
    Workers,
};
use flip_stress::Sizes;
use std::alloc::{AllocError, Global};

/// Why the words of a command line hold no command.
#[derive(Drop)]
pub enum LineFault {
    /// Help was asked for: the text for the standard output.
    Help(String),
    /// The version was asked for: the text for the standard output.
    Version(String),
    /// The arguments are wrong: the text for the standard error.
    Bad(String),
    /// Memory ran out.
    Memory,
}

impl From<AllocError> for LineFault {
    ghost from_gives = { λ _ fault. fault ≡ Memory };

    fn from(_error: AllocError) -> LineFault {
        LineFault::Memory
    }
}

/// Reads the words of a command line, of which the first is the program's name. Where the second one ends in `.il`, as no command does,
/// the words after the program's name are read as those of `threads`.
pub fn order<'a>(alloc: Global, words: &'a [&'a str]) -> Result<Order<'a>, LineFault>
    ensures answer { Answers (map (λ word. word.now) words.entry.now) result }
    ensures range { IfOk result IsInRange }
{
    if begins_with_source(words) {
        threads_order(alloc, words)
    } else {
        command_order(alloc, words)
    }
}

/// Whether the word after the program's name is the name of a source.
#[tactic(auto, using(crate::proofs::WordLemmas::word_at))]
fn begins_with_source(words: &[&str]) -> bool
    ensures { result ≡ begins_with_source (map (λ word. word.now) words.now) }
{
    match words.get(1) {
        Some(word) => is_source_name(word),
        None => false,
    }
}

/// Whether a file's name ends in `.il`.
fn is_source_name(name: &str) -> bool
    ensures { result ≡ is_source_name name.now }
{
    name.as_bytes().ends_with(b".il")
}

/// Reads the words of `threads`, of which the first is the program's name in place of the command's.
fn threads_order<'a>(alloc: Global, words: &'a [&'a str]) -> Result<Order<'a>, LineFault>
    ensures answer { AnswersBy (fault_of threads_app (map (λ word. word.now) words.entry.now)) (threads_in (matches_of threads_app (map (λ word. word.now) words.entry.now))) result }
    ensures range { IfOk result IsInRange }
{
    let command = threads_command(alloc)?;
    match command.try_get_matches_from(words) {
        Ok(matches) => requested_threads_order(alloc, &matches),
        Err(error) => Err(line_fault(alloc, &error)),
    }
}

/// Reads the words of a command line that names a command.
fn command_order<'a>(alloc: Global, words: &'a [&'a str]) -> Result<Order<'a>, LineFault>
    ensures answer { AnswersBy (fault_of cilvm_app (map (λ word. word.now) words.entry.now)) (request_in (subcommand_of cilvm_app (map (λ word. word.now) words.entry.now))) result }
    ensures range { IfOk result IsInRange }
{
    let command = cilvm_command(alloc)?;
    match command.try_get_matches_from(words) {
        Ok(matches) => requested_order(alloc, &matches),
        Err(error) => Err(line_fault(alloc, &error)),
    }
}

/// The command that the matches hold.
fn requested_order<'a>(alloc: Global, matches: &ArgMatches<'a>) -> Result<Order<'a>, LineFault>
    ensures value { IfOk result (λ order. request_in (subcommand_rows_of matches.now) ≡ Some (request_of order)) }
    ensures range { IfOk result IsInRange }
    ensures none { IfErr result (IsOfNone (request_in (subcommand_rows_of matches.now))) }
{
    match requested_command(matches) {
        Some(order) => Ok(order),
        None => Err(LineFault::Bad(reported_of_none(alloc, matches)?)),
    }
}

/// The command that the matches of `threads` hold.
fn requested_threads_order<'a>(
    alloc: Global,
    found: &ArgMatches<'a>,
) -> Result<Order<'a>, LineFault>
    ensures value { IfOk result (λ order. threads_in (rows_of (found_of found.now)) ≡ Some (request_of order)) }
    ensures range { IfOk result IsInRange }
    ensures none { IfErr result (IsOfNone (threads_in (rows_of (found_of found.now)))) }
{
    match requested_threads(found) {
        Some(order) => Ok(order),
        None => Err(LineFault::Bad(reported_of_none(alloc, found)?)),
    }
}

/// The error of words that clap takes and that hold no command: of a last event before the first one, or of an unknown goal. It fails only if memory
/// runs out.
fn reported_of_none(alloc: Global, matches: &ArgMatches<'_>) -> Result<String, AllocError> {
    if let Some((_, found)) = matches.subcommand() {
        if let Some(first) = text(found, "from") {
            let last = text(found, "to").unwrap_or("");
            return format!(in alloc;
                "error: invalid value '{last}' for '--to <N>': {last} is not in {first}..={LAST_NUMBER}\n\nFor more information, try '--help'.\n"
            );
        }
        if let Some(goal) = text(found, "until") {
            return format!(in alloc;
                "error: invalid value '{goal}' for '--until <GOAL>'\n  [possible values: fault, deadlock, output]\n\nFor more information, try '--help'.\n"
            );
        }
    }
    String::from_str(alloc, "error: the command line holds no order\n")
}

fn line_fault(alloc: Global, error: &Error) -> LineFault
    ensures { FaultIs (kind_of error.now) result }
{
    let kind = error.kind();
    if kind == ErrorKind::OutOfMemory {
        return LineFault::Memory;
    }
    match error_text(alloc, error) {
        Ok(text) if kind == ErrorKind::DisplayHelp => LineFault::Help(text),
        Ok(text) if kind == ErrorKind::DisplayVersion => LineFault::Version(text),
        Ok(text) => LineFault::Bad(text),
        Err(_) => LineFault::Memory,
    }
}

/// What clap prints of an error, without its tip on how to pass an unknown option as a value, which nobody means. The only error is
/// out of memory.
fn error_text(alloc: Global, error: &Error) -> Result<String, AllocError> {
    let text = error.to_string(alloc)?;
    let Some((message, tip)) = text.as_str().split_once("\n\n  tip: to pass '") else {
        return Ok(text);
    };
    match tip.split_once("\n\nUsage: ") {
        Some((_, usage)) => format!(in alloc; "{message}\n\nUsage: {usage}"),
        None => Ok(text),
    }
}

fn requested_command<'a>(matches: &ArgMatches<'a>) -> Option<Order<'a>>
    ensures value { option_map request_of result ≡ request_in (subcommand_rows_of matches.now) }
    ensures range { IfSome result IsInRange }
{
    let (name, found) = matches.subcommand()?;
    match name {
        "check" => requested_check(found),
        "threads" => requested_threads(found),
        "run" => requested_run(found),
        "replay" => requested_replay(found),
        "trace" => requested_trace(found),
        "picture" => requested_picture(found),
        "explore" => requested_explore(found),
        "flip" => requested_flip(found),
        _ => None,
    }
}

fn requested_check<'a>(found: &ArgMatches<'a>) -> Option<Order<'a>>
    ensures value { option_map request_of result ≡ check_in (rows_of (found_of found.now)) }
    ensures range { IfSome result IsInRange }
{
    let file = text(found, "file")?;
    let explain = flag(found, "explain");
    Some(Order::Check { file, explain })
}

fn requested_run<'a>(found: &ArgMatches<'a>) -> Option<Order<'a>>
    ensures value { option_map request_of result ≡ run_in (rows_of (found_of found.now)) }
    ensures range { IfSome result IsInRange }
{
    let most_printed = most_printed(found)?;
    let (file, text, limits) = schedule_arguments(found)?;
    Some(Order::Run(Run {
        file,
        kind: RunKind::Schedule { text, limits },
        most_printed,
        explain: flag(found, "explain"),
        stats: flag(found, "stats"),
    }))
}

fn requested_replay<'a>(found: &ArgMatches<'a>) -> Option<Order<'a>>
    ensures value { option_map request_of result ≡ replay_in (rows_of (found_of found.now)) }
    ensures range { IfSome result IsInRange }
{
    let most_printed = most_printed(found)?;
    let (file, schedule, limits) = replay_arguments(found)?;
    let kind = RunKind::Replay {
        schedule,
        limits,
        expected: None,
    };
    Some(Order::Run(Run {
        file,
        kind,
        most_printed,
        explain: flag(found, "explain"),
        stats: flag(found, "stats"),
    }))
}

/// The source's file, the file of a schedule, and the limits that are given.
fn replay_arguments<'a>(found: &ArgMatches<'a>) -> Option<(&'a str, &'a str, GivenLimits)>
    ensures value { option_map (λ s. (s.0.now, s.1.now, s.2)) result ≡ replayed_in (rows_of (found_of found.now)) }
    ensures range { IfSome result (λ s. AreGivenInRange s.2) }
{
    let file = text(found, "file")?;
    let schedule = text(found, "schedule")?;
    let limits = given_limits(found)?;
    Some((file, schedule, limits))
}

/// The limits that are given.
fn given_limits(found: &ArgMatches<'_>) -> Option<GivenLimits>
    ensures value { result ≡ given_in (rows_of (found_of found.now)) }
    ensures range { IfSome result AreGivenInRange }
{
    let words = given_number(found, "words", LEAST_WORDS, MOST_WORDS)?;
    let max_words = given_number(found, "max-words", LEAST_WORDS, MOST_WORDS)?;
    let budget = given_number(found, "budget", 1, MOST_BUDGET)?;
    let depth = given_number(found, "depth", 1, MOST_DEPTH)?;
    Some(GivenLimits {
        words,
        max_words,
        budget,
        depth,
    })
}

/// The number that is given for `id`: none if none is given. Fails if it is out of its range.
fn given_number(found: &ArgMatches<'_>, id: &str, least: u32, most: u32) -> Option<Option<u32>>
    ensures value { result ≡ given_at least most id.now (rows_of (found_of found.now)) }
    ensures range { IfSome result (λ given. IfSome given (λ n. (least ≤ n) × (n ≤ most))) }
{
    match text(found, id) {
        None => Some(None),
        Some(text) => Some(Some(number_in(text, least, most)?)),
    }
}

fn requested_trace<'a>(found: &ArgMatches<'a>) -> Option<Order<'a>>
    ensures value { option_map request_of result ≡ trace_in (rows_of (found_of found.now)) }
    ensures range { IfSome result IsInRange }
{
    let (file, schedule, limits) = replay_arguments(found)?;
    let explain = flag(found, "explain");
    Some(Order::Trace {
        file,
        schedule,
        limits,
        expected: None,
        explain,
    })
}

fn requested_picture<'a>(found: &ArgMatches<'a>) -> Option<Order<'a>>
    ensures value { option_map request_of result ≡ picture_in (rows_of (found_of found.now)) }
    ensures range { IfSome result IsInRange }
{
    let part = part(found)?;
    let (file, schedule, limits) = replay_arguments(found)?;
    let explain = flag(found, "explain");
    Some(Order::Picture {
        file,
        schedule,
        part,
        limits,
        expected: None,
        explain,
    })
}

/// Which events a picture shows.
fn part(found: &ArgMatches<'_>) -> Option<Part>
    ensures value { option_map (λ part. (part.first, part.last)) result ≡ part_in (rows_of (found_of found.now)) }
    ensures range { IfSome result IsPartInRange }
{
    let first = number(found, "from", 1, LAST_NUMBER)?;
    let last = match text(found, "to") {
        None => None,
        Some(text) => Some(number_in(text, first, LAST_NUMBER)?),
    };
    Some(Part::new(first, last))
}

fn requested_threads<'a>(found: &ArgMatches<'a>) -> Option<Order<'a>>
    ensures value { option_map request_of result ≡ threads_in (rows_of (found_of found.now)) }
    ensures range { IfSome result IsInRange }
{
    let most_printed = most_printed(found)?;
    let (file, workers, limits) = worker_arguments(found)?;
    let kind = RunKind::Workers {
        workers,
        record: text(found, "record"),
        stop_at: stop_at(found),
        limits,
    };
    Some(Order::Run(Run {
        file,
        kind,
        most_printed,
        explain: is_explained(found),
        stats: flag(found, "stats"),
    }))
}

/// Whether a run by workers is explained: if it is asked for, and if the run is to stop at a deadlock.
fn is_explained(found: &ArgMatches<'_>) -> bool
    ensures { result ≡ is_explained_in (rows_of (found_of found.now)) }
{
    flag(found, "explain") || flag(found, "stop-at-deadlock")
}

/// The most bytes that the program prints; none where the command line gives no bound.
fn most_printed(found: &ArgMatches<'_>) -> Option<Option<u32>>
    ensures value { result ≡ output_in (rows_of (found_of found.now)) }
    ensures range { IfSome result IsOutputInRange }
{
    given_number(found, "output", LEAST_OUTPUT, MOST_OUTPUT)
}

/// When a run by workers stops.
fn stop_at(found: &ArgMatches<'_>) -> StopAt
    ensures { result ≡ stop_at_in (rows_of (found_of found.now)) }
{
    if flag(found, "stop-at-deadlock") {
        StopAt::Deadlock
    } else {
        StopAt::End
    }
}

fn requested_explore<'a>(found: &ArgMatches<'a>) -> Option<Order<'a>>
    ensures value { option_map request_of result ≡ explore_in (rows_of (found_of found.now)) }
    ensures range { IfSome result IsInRange }
{
    let (file, extent, limits) = explore_arguments(found)?;
    let save = text(found, "save");
    let explain = flag(found, "explain");
    Some(Order::Explore {
        file,
        extent,
        save,
        limits,
        explain,
    })
}

fn requested_flip<'a>(found: &ArgMatches<'a>) -> Option<Order<'a>>
    ensures value { option_map request_of result ≡ flip_in (rows_of (found_of found.now)) }
    ensures range { IfSome result IsInRange }
{
    let seats = number(found, "seats", 1, 16)?;
    let objects = number(found, "objects", 1, 256)?;
    let slots = number(found, "slots", 1, 16)?;
    let rounds = number(found, "rounds", 0, 10_000)?;
    Some(Order::Flip(Sizes::new(seats as u8, objects as u16, slots as u8, rounds as u16)))
}

/// The source's file, the schedule and the limits of a run.
fn schedule_arguments<'a>(found: &ArgMatches<'a>) -> Option<(&'a str, &'a str, Limits)>
    ensures value { option_map (λ s. (s.0.now, s.1.now, s.2)) result ≡ scheduled_in (rows_of (found_of found.now)) }
    ensures range { IfSome result (λ s. are_numbers_in_range s.2 ≡ true) }
{
    let file = text(found, "file")?;
    let schedule = text(found, "schedule")?;
    let limits = limits(found)?;
    Some((file, schedule, limits))
}

/// The source's file, the workers and the limits of a run.
fn worker_arguments<'a>(found: &ArgMatches<'a>) -> Option<(&'a str, Workers, Limits)>
    ensures value { option_map (λ s. (s.0.now, s.1.count, s.2)) result ≡ worked_in (rows_of (found_of found.now)) }
    ensures range { IfSome result (λ s. are_numbers_in_range s.2 ≡ true) }
{
    let file = text(found, "file")?;
    let workers = number(found, "workers", 1, 16)?;
    let limits = limits(found)?;
    Some((file, Workers::new(workers as u8), limits))
}

/// The source's file, the bounds of its exploration, and the limits of its runs.
fn explore_arguments<'a>(found: &ArgMatches<'a>) -> Option<(&'a str, Extent, Limits)>
    ensures value { option_map (λ s. (s.0.now, s.1, s.2)) result ≡ explored_in (rows_of (found_of found.now)) }
    ensures range { IfSome result (λ s. are_numbers_in_range s.2 ≡ true) }
{
    let file = text(found, "file")?;
    let extent = extent(found)?;
    let limits = limits(found)?;
    Some((file, extent, limits))
}

/// The bounds of an exploration. None if a number or the goal can't be read.
fn extent(found: &ArgMatches<'_>) -> Option<Extent>
    ensures { result ≡ extent_in (rows_of (found_of found.now)) }
{
    let states = number(found, "states", 1, MOST_STATES)?;
    let preemptions = most_preemptions(found)?;
    let until = goal(found)?;
    Some(Extent {
        states,
        preemptions,
        until,
    })
}

/// The maximum number of preemptions; none if none is given.
fn most_preemptions(found: &ArgMatches<'_>) -> Option<Option<u32>>
    ensures { result ≡ parsed_option (number_in 0 1000) (first_of (codes "preemptions") (rows_of (found_of found.now))) }
{
    match text(found, "preemptions") {
        None => Some(None),
        Some(text) => Some(Some(number_in(text, 0, MOST_PREEMPTIONS)?)),
    }
}

/// The outcome at which an exploration stops; none if none is given.
fn goal(found: &ArgMatches<'_>) -> Option<Option<Goal>>
    ensures { result ≡ parsed_option goal_in (first_of (codes "until") (rows_of (found_of found.now))) }
{
    match text(found, "until") {
        None => Some(None),
        Some(text) => Some(Some(goal_in(text)?)),
    }
}

/// The outcome at which an exploration stops, by its word.
fn goal_in(text: &str) -> Option<Goal>
    ensures { result ≡ goal_in text.now }
{
    match text {
        "fault" => Some(Goal::Fault),
        "deadlock" => Some(Goal::Deadlock),
        "output" => Some(Goal::Output),
        _ => None,
    }
}

fn limits(found: &ArgMatches<'_>) -> Option<Limits>
    ensures value { result ≡ limits_in (rows_of (found_of found.now)) }
    ensures range { IfSome result (λ limits. are_numbers_in_range limits ≡ true) }
{
    let words = number(found, "words", LEAST_WORDS, MOST_WORDS)?;
    let max_words = most_words(found, words)?;
    let budget = number(found, "budget", 1, MOST_BUDGET)?;
    let depth = number(found, "depth", 1, MOST_DEPTH)?;
    Some(Limits {
        words,
        max_words,
        budget,
        depth,
    })
}

/// The most words of a space: those of the first one where none is said.
fn most_words(found: &ArgMatches<'_>, words: u32) -> Option<u32>
    requires range { (LEAST_WORDS ≤ words) × (words ≤ MOST_WORDS) }
    ensures value { result ≡ most_in words (rows_of (found_of found.now)) }
    ensures range { IfSome result (λ n. (LEAST_WORDS ≤ n) × (n ≤ MOST_WORDS)) }
{
    match text(found, "max-words") {
        None => Some(words),
        Some(text) => number_in(text, LEAST_WORDS, MOST_WORDS),
    }
}

/// The text that was given for `id`.
fn text<'a>(found: &ArgMatches<'a>, id: &str) -> Option<&'a str>
    ensures { option_map (λ s. s.now) result ≡ first_of id.now (rows_of (found_of found.now)) }
{
    found.get_str(id)
}

/// Whether the flag `id` was given.
fn flag(found: &ArgMatches<'_>, id: &str) -> bool
    ensures { result ≡ flag_at id.now (rows_of (found_of found.now)) }
{
    match text(found, id) {
        Some("true") => true,
        _ => false,
    }
}

/// The number that was given for `id`, or its default, where it lies in the range.
fn number(found: &ArgMatches<'_>, id: &str, least: u32, most: u32) -> Option<u32>
    ensures value { result ≡ number_at least most id.now (rows_of (found_of found.now)) }
    ensures range { IfSome result (λ n. (least ≤ n) × (n ≤ most)) }
{
    number_in(text(found, id)?, least, most)
}

/// The number that `text` writes, where it lies in the range.
fn number_in(text: &str, least: u32, most: u32) -> Option<u32>
    ensures value { result ≡ number_in least most text.now }
    ensures range { IfSome result (λ n. (least ≤ n) × (n ≤ most)) }
{
    match text.parse::<u32>() {
        Ok(number) if least <= number && number <= most => Some(number),
        _ => None,
    }
}
