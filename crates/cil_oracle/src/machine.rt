//! The reference machine of a program.

use crate::classes::Found;
use crate::effects::Halt;
use crate::names::OracleNames;
use crate::state::State;
use cil_model::limits::Limits;
use cil_model::memory::NoMemory;
use cil_model::reports::{End, Report};
use name_tables::bodies::code_of;
use name_tables::ids::ClassId;
use name_tables::lookups::NameTables;
use std::alloc::Global;
use std::fmt;

/// The machine whose objects never move, in a state of a run.
#[derive(Drop)]
pub struct OracleMachine<'a> {
    state: State<'a>,
}

/// The first method with `.entrypoint` (ECMA-335 II.15.4.1.2).
fn entry_point<'a>(names: &NameTables<'a>) -> Option<Found<'a>> {
    for (class, table) in names.classes.all().iter().enumerate() {
        for method in table.class.methods.as_slice() {
            if code_of(&method.kind).is_some_and(|code| code.is_entry_point) {
                return Some(Found::new(ClassId::new(class), method));
            }
        }
    }
    None
}

/// The outcome of a call that may be stuck.
fn unless_stuck<T>(done: Result<T, Halt>) -> Result<Option<T>, NoMemory> {
    match done {
        Ok(it) => Ok(Some(it)),
        Err(Halt::NoMemory) => Err(NoMemory),
        Err(_) => Ok(None),
    }
}

impl<'a> OracleMachine<'a> {
    /// The machine of a program before its first step: thread 0 is at the beginning of the entry point. None where the
    /// program has no entry point.
    pub fn new(
        alloc: Global,
        names: &'a OracleNames<'a>,
        limits: Limits,
    ) -> Result<Option<Self>, NoMemory> {
        let Some(entry) = entry_point(names.tables) else {
            return Ok(None);
        };
        let mut state = State::new(alloc, names, limits);
        match unless_stuck(state.open(entry))? {
            None => Ok(None),
            Some(()) => Ok(Some(OracleMachine { state })),
        }
    }

    /// One step of the thread, in which a birth is refused or not. None where it is stuck: an operand is missing or of the
    /// wrong kind, or a name refers to nothing, as never in a verified program. A thread that was stuck, or for which memory
    /// ran out, has to make no further step.
    ///
    /// `is_refused` counts where a birth is due, and nowhere else.
    pub fn step(&mut self, thread: u8, is_refused: bool) -> Result<Option<Report>, NoMemory> {
        unless_stuck(self.state.step(usize::from(thread), is_refused))
    }

    /// What was printed.
    pub fn console(&self) -> &[u8] {
        self.state.console.as_bytes()
    }

    /// How the thread ended; none where it is live or was never started.
    pub fn end_of(&self, thread: u8) -> Option<End> {
        self.state.threads.get(usize::from(thread))?.ended
    }

    /// Whether the thread was started and has not ended.
    pub fn is_live(&self, thread: u8) -> bool {
        self.state.is_live(usize::from(thread))
    }

    /// How many threads are live.
    pub fn live(&self) -> usize {
        let threads = self.state.threads.iter();
        threads.filter(|thread| thread.ended.is_none()).count()
    }

    /// How many threads were started, the first one counted.
    pub fn started(&self) -> usize {
        self.state.threads.len()
    }
}

/// A line for each thread, with its number: the end or the steps that are left, and each frame's pc, instruction and stack.
impl fmt::Display for OracleMachine<'_> {
    fn fmt<W: fmt::Write>(&self, f: &mut fmt::Formatter<W>) -> fmt::Result {
        for (number, thread) in self.state.threads.iter().enumerate() {
            writeln!(f, "thread {number}: {thread}")?;
        }
        Ok(())
    }
}
