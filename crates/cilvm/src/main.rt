//! The program `cilvm`.
#![tactic(auto)]

use command_line::{LineFault, Malformed, Unread, Unwritten};
use commands::{Order, read_source, read_text, run_file_name};
use driver::{Failure, Outputs, RecordFiles, WriterOut};
use std::alloc::AllocError;
use std::fs::File;
use std::process::ExitCode;
use std::sync::Wait;
use std::thread::Threads;
use std::time::{Clock, Duration, Instant};
use std::{env, fs, io};

fn main(rt: HostRuntime) -> ExitCode {
    let errors = rt.stderr();
    let mut err = WriterOut::new(io::writer(&errors));
    let status = match program(&rt, &rt) {
        Ok(status) => status,
        Err(failure) => driver::report(failure, &mut err),
    };
    ExitCode::from(status)
}

fn program(
    rt: &HostRuntime,
    threads: &(impl Threads + Wait + Clock + Sync),
) -> Result<u8, Failure> {
    match given_words(rt)? {
        Some(given) => obey(rt, threads, given.as_slice()),
        None => {
            eprintln!(rt; "error: an argument is not UTF-8")?;
            Ok(2)
        }
    }
}

/// The words of the command line. None where one of them is not UTF-8.
fn given_words(rt: &HostRuntime) -> Result<Option<Vec<String>>, Failure> {
    match env::args(rt) {
        Ok(args) => Ok(Some(args.collect(rt.alloc())?)),
        Err(error) if error.kind() == io::ErrorKind::InvalidData => Ok(None),
        Err(error) => Err(Failure::from(error)),
    }
}

/// Does what the words of the command line ask for, and returns the status.
fn obey(
    rt: &HostRuntime,
    threads: &(impl Threads + Wait + Clock + Sync),
    given: &[String],
) -> Result<u8, Failure> {
    let alloc = rt.alloc();
    let words: Vec<&str> = given.iter().map(|word| word.as_str()).collect(alloc)?;
    match command_line::order(alloc, words.as_slice()) {
        Ok(order) => Ok(carry_out(rt, threads, &order)),
        Err(fault) => report_line(rt, &fault),
    }
}

/// Prints the help, the version or the error that a command line has in place of a command, and returns the status.
fn report_line(rt: &HostRuntime, fault: &LineFault) -> Result<u8, Failure> {
    match fault {
        LineFault::Help(text) | LineFault::Version(text) => {
            print!(rt; "{text}")?;
            Ok(0)
        }
        LineFault::Bad(text) => {
            eprint!(rt; "{text}")?;
            Ok(2)
        }
        LineFault::Memory => Err(Failure::Memory),
    }
}

/// Carries out a command on its files, and returns the status.
fn carry_out(
    rt: &HostRuntime,
    threads: &(impl Threads + Wait + Clock + Sync),
    order: &Order<'_>,
) -> u8 {
    let source = match source_of(rt, order) {
        Ok(source) => source,
        Err(unread) => return report_unread(rt, &unread),
    };
    let schedule = match schedule_of(rt, order) {
        Ok(schedule) => schedule,
        Err(unread) => return report_unread(rt, &unread),
    };
    match with_run_file(rt, order) {
        Ok(order) => carry_out_timed(rt, threads, &order, source.as_slice(), schedule.as_slice()),
        Err(status) => status,
    }
}

/// The command with what the `.run` file beside its schedule says, where there is one. If that is not read or is not a `.run` file, it is
/// reported, and the error is the status.
fn with_run_file<'a>(rt: &HostRuntime, order: &Order<'a>) -> Result<Order<'a>, u8> {
    let Some(schedule) = order.schedule_file() else {
        return Ok(*order);
    };
    let name = match run_file_name(rt.alloc(), schedule) {
        Ok(name) => name,
        Err(_) => return Err(report_failure(rt, Failure::Memory)),
    };
    let file = name.as_str();
    match text_where_found(rt, file) {
        Ok(None) => Ok(*order),
        Ok(Some(text)) => match run_files::read(text.as_slice()) {
            Some(run) => Ok(order.with_run_file(run)),
            None => Err(report_malformed(rt, &Malformed { file })),
        },
        Err(error) => Err(report_unread(rt, &Unread { file, error })),
    }
}

/// The bytes of a file. None if there is no such file, or no file can have this name.
fn text_where_found(rt: &HostRuntime, file: &str) -> io::Result<Option<Vec<u8>>> {
    match File::open(rt, file) {
        Ok(opened) => Ok(Some(read_text(rt.alloc(), opened)?)),
        Err(error) => match error.kind() {
            io::ErrorKind::NotFound | io::ErrorKind::InvalidFilename => Ok(None),
            _ => Err(error),
        },
    }
}

/// Carries out a command on the bytes of its files, and returns the status. Prints the seconds of a run after its other numbers.
fn carry_out_timed(
    rt: &HostRuntime,
    threads: &(impl Threads + Wait + Clock + Sync),
    order: &Order<'_>,
    source: &[u8],
    schedule: &[u8],
) -> u8 {
    let start = Instant::now(rt);
    let errors = rt.stderr();
    let mut outputs = Outputs::new(
        WriterOut::new(io::writer(rt)),
        WriterOut::new(io::writer(&errors)),
    );
    let status = driver::drive(threads, rt.alloc(), order, source, schedule, &mut outputs);
    let status = write_files(rt, order, outputs.files, status);
    if let (Ok(start), Some(ended)) = (start, outputs.ended) {
        if order.counts() && is_of_run(status) {
            show_seconds(rt, ended.duration_since(start));
        }
    }
    status
}

/// Whether a status is that of a run that has its numbers printed: each of its threads is done, some have ended early, some are live, or it differs from
/// the recorded one.
fn is_of_run(status: u8) -> bool {
    matches!(status, 0 | 3 | 4 | 6)
}

/// Prints a time in seconds.
fn show_seconds(rt: &HostRuntime, time: Duration) {
    let seconds = time.as_secs();
    let millis = time.subsec_millis();
    let _written = eprintln!(rt; "seconds: {seconds}.{millis:03}");
}

/// Writes the files that a command has left, if it has, and returns the status, which is this one if they are written.
fn write_files(rt: &HostRuntime, order: &Order<'_>, files: Option<RecordFiles>, status: u8) -> u8 {
    match files {
        Some(texts) => write_record(rt, order, &texts, status),
        None => status,
    }
}

/// Writes the record of a run to the file that the command names, and its `.run` file beside it, and returns the status, which is this one if
/// they are written. A run that has a record has some events; where there are none, no file is made.
fn write_record(rt: &HostRuntime, order: &Order<'_>, texts: &RecordFiles, status: u8) -> u8 {
    let Some(file) = order.record_file() else {
        return status;
    };
    if texts.schedule.is_empty() {
        return status;
    }
    match fs::write(rt, file, texts.schedule.as_bytes()) {
        Ok(()) => write_run_file(rt, file, texts, status),
        Err(error) => report_unwritten(rt, &Unwritten { file, error }),
    }
}

/// Writes the `.run` file of a record, and returns the status, which is this one if it is written. A record that is no regular file, as a
/// pipe or a terminal, has none.
fn write_run_file(rt: &HostRuntime, record: &str, texts: &RecordFiles, status: u8) -> u8 {
    if !is_regular(rt, record) {
        return status;
    }
    let name = match run_file_name(rt.alloc(), record) {
        Ok(name) => name,
        Err(_) => return report_failure(rt, Failure::Memory),
    };
    let file = name.as_str();
    match fs::write(rt, file, texts.run.as_bytes()) {
        Ok(()) => status,
        Err(error) => report_unwritten(rt, &Unwritten { file, error }),
    }
}

/// Whether a file is a regular one.
fn is_regular(rt: &HostRuntime, file: &str) -> bool {
    match fs::metadata(rt, file) {
        Ok(found) => found.is_file(),
        Err(_) => false,
    }
}

/// The bytes of the file that holds the source; none where no file does.
fn source_of<'a>(rt: &HostRuntime, order: &Order<'a>) -> Result<Vec<u8>, Unread<'a>> {
    let alloc = rt.alloc();
    let Some(file) = order.file() else {
        return Ok(Vec::new(alloc));
    };
    match File::open(rt, file) {
        Ok(opened) => read_source(alloc, opened).map_err(|error| Unread { file, error }),
        Err(error) => Err(Unread { file, error }),
    }
}

/// The bytes of the file that holds the schedule; none where no file does.
fn schedule_of<'a>(rt: &HostRuntime, order: &Order<'a>) -> Result<Vec<u8>, Unread<'a>> {
    let alloc = rt.alloc();
    let Some(file) = order.schedule_file() else {
        return Ok(Vec::new(alloc));
    };
    match File::open(rt, file) {
        Ok(opened) => read_text(alloc, opened).map_err(|error| Unread { file, error }),
        Err(error) => Err(Unread { file, error }),
    }
}

/// Reports that a file is not a `.run` file, and returns the status.
fn report_malformed(rt: &HostRuntime, malformed: &Malformed<'_>) -> u8 {
    let status = report_failure(rt, Failure::Refused(run_files::MALFORMED));
    if let Ok(text) = malformed.error_text(rt.alloc()) {
        let _written = eprint!(rt; "{text}");
    }
    status
}

/// Reports a failure, and returns its status.
fn report_failure(rt: &HostRuntime, failure: Failure) -> u8 {
    let errors = rt.stderr();
    driver::report(failure, &mut WriterOut::new(io::writer(&errors)))
}

/// Reports that a file is not read, and why, and returns the status.
fn report_unread(rt: &HostRuntime, unread: &Unread<'_>) -> u8 {
    report_file(rt, unread.error, unread.error_text(rt.alloc()))
}

/// Reports that the record's file is not written, and why, and returns the status.
fn report_unwritten(rt: &HostRuntime, unwritten: &Unwritten<'_>) -> u8 {
    report_file(rt, unwritten.error, unwritten.error_text(rt.alloc()))
}

/// Reports an error of a file, and after it a text about the file. Where that text is not available or not written, the first line is alone.
fn report_file(rt: &HostRuntime, error: io::Error, reported: Result<String, AllocError>) -> u8 {
    let status = report_failure(rt, Failure::from(error));
    if let Ok(text) = reported {
        let _written = eprint!(rt; "{text}");
    }
    status
}
