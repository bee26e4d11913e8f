//! The parts of a case.

/// A command, the texts that replace its files, and its expected outcome.
#[derive(Clone, Copy)]
pub struct Case<'a> {
    pub name: &'a str,
    /// The words of the command line, as a shell takes them.
    pub command: &'a str,
    /// Limits in place of those that the command gives, which no command can have.
    pub limits: Option<&'a str>,
    /// The source in place of the file that the command names.
    pub source: Option<&'a str>,
    /// The schedule in place of the file that the command names.
    pub schedule: Option<&'a str>,
    /// The `.run` file of the schedule that the command names; none where there is no such file.
    pub run: Option<&'a str>,
    /// The standard output, and then in marked parts the standard error, the status, and perhaps more of the run.
    pub expected_outcome: &'a str,
}

/// The case of a block; none where it has no name, no command or no expected outcome.
pub fn case_of(block: &str) -> Option<Case<'_>> {
    let (given, expected_outcome) = block.split_once("\n--- out\n")?;
    let (given, run) = part_of(given, "\n--- run\n");
    let (given, schedule) = part_of(given, "\n--- schedule\n");
    let (given, source) = part_of(given, "\n--- source\n");
    let (given, limits) = part_of(given, "\n--- limits ");
    let (name, command) = given.split_once("\n$ ")?;
    Some(Case {
        name,
        command,
        limits,
        source,
        schedule,
        run,
        expected_outcome,
    })
}

/// The text before a mark, and the text after it where there is a mark.
fn part_of<'a>(text: &'a str, mark: &str) -> (&'a str, Option<&'a str>) {
    match text.split_once(mark) {
        Some((before, following)) => (before, Some(following)),
        None => (text, None),
    }
}
