//! Calls that are made again if they were out of memory.

use crate::stops::Stop;
use cil_model::limits::Limits;
use class_layout::lay_out;
use ilasm_reader::read;
use interleaving_core::Machine;
use metadata::resolve;
use schedule_text::{Item, read_schedule, write_schedule};
use std::alloc::Global;
use std::fmt;
use verifier::verify;

/// How often a call is made: more often than tools/try_memory refuses an allocation.
pub const TRIES: usize = 4;

/// A space that grows, and few steps.
const LIMITS: Limits = Limits {
    words: 64,
    max_words: 256,
    budget: 4000,
    depth: 16,
};

/// A call that takes memory.
#[derive(Clone, Copy)]
pub enum Call {
    Read,
    Resolve,
    LayOut,
    Verify,
    NewMachine,
    ReadSchedule,
    WriteSchedule,
    Step,
    Perform,
}

/// The name that is printed if the call was out of memory.
impl fmt::Display for Call {
    fn fmt<W: fmt::Write>(&self, f: &mut fmt::Formatter<W>) -> fmt::Result {
        f.write_str(match self {
            Call::Read => "read",
            Call::Resolve => "resolve",
            Call::LayOut => "lay_out",
            Call::Verify => "verify",
            Call::NewMachine => "Machine::new",
            Call::ReadSchedule => "read_schedule",
            Call::WriteSchedule => "write_schedule",
            Call::Step => "step",
            Call::Perform => "perform",
        })
    }
}

/// Prints the name of a call that was out of memory, so that it is made again. Any other reason to stop is returned.
fn print_out_of_memory(rt: &HostRuntime, stop: Stop) -> Result<(), Stop> {
    match stop {
        Stop::OutOfMemory(call) => eprintln!(rt; "{call}")?,
        _ => return Err(stop),
    }
    Ok(())
}

/// The items of a schedule.
pub fn read_items(rt: &HostRuntime, text: &[u8]) -> Result<Vec<Item>, Stop> {
    for _time in 0..TRIES {
        match read_schedule(rt.alloc(), text) {
            Ok(items) => return Ok(items),
            Err(error) => print_out_of_memory(rt, Stop::of_schedule(Call::ReadSchedule, error))?,
        }
    }
    Err(Stop::Wrong("a schedule whose reading stays out of memory"))
}

/// The text of a schedule.
pub fn write_items(rt: &HostRuntime, items: &[Item]) -> Result<String, Stop> {
    for _time in 0..TRIES {
        match write_schedule(rt.alloc(), items) {
            Ok(text) => return Ok(text),
            Err(error) => print_out_of_memory(rt, Stop::of_schedule(Call::WriteSchedule, error))?,
        }
    }
    Err(Stop::Wrong("a schedule whose writing stays out of memory"))
}

/// The machine of a source before its first event.
pub fn open_machine(rt: &HostRuntime, source: &[u8]) -> Result<Machine, Stop> {
    for _time in 0..TRIES {
        match open_once(rt.alloc(), source) {
            Ok(machine) => return Ok(machine),
            Err(stop) => print_out_of_memory(rt, stop)?,
        }
    }
    Err(Stop::Wrong("a source whose machine stays out of memory"))
}

/// The machine of a source, by a call of each layer.
fn open_once(alloc: Global, source: &[u8]) -> Result<Machine, Stop> {
    let tree = read(alloc, source)?;
    let program = resolve(alloc, tree)?;
    let layout = lay_out(alloc, &program)?;
    let verified = verify(alloc, program, layout)?;
    Ok(Machine::new(alloc, verified, LIMITS)?)
}
