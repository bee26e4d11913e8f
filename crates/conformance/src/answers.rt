//! The results of the layers of the library for a source or a schedule, in their own words.

use crate::outcomes::Files;
use cil_model::trees::Tree;
use class_layout::lay_out;
use commands::Order;
use ilasm_reader::read;
use metadata::{Program, resolve};
use schedule_text::{Item, read_schedule};
use std::alloc::{AllocError, Global};
use verifier::verify;

/// The result for the source of a check, and for the schedule of another command.
pub fn answer(alloc: Global, order: &Order<'_>, files: &Files) -> Result<String, AllocError> {
    match order {
        Order::Check { .. } => source_answer(alloc, files.source.as_slice()),
        _ => schedule_answer(alloc, files.schedule.as_slice()),
    }
}

/// The result for a source, by the first layer that refuses it.
fn source_answer(alloc: Global, source: &[u8]) -> Result<String, AllocError> {
    match read(alloc, source) {
        Ok(tree) => tree_answer(alloc, tree),
        Err(error) => format!(in alloc; "error {}: {error}", error.number()),
    }
}

fn tree_answer(alloc: Global, tree: Tree) -> Result<String, AllocError> {
    match resolve(alloc, tree) {
        Ok(program) => program_answer(alloc, program),
        Err(error) => format!(in alloc; "error {}: {error}", error.number()),
    }
}

fn program_answer(alloc: Global, program: Program) -> Result<String, AllocError> {
    let Ok(layout) = lay_out(alloc, &program) else {
        return String::from_str(alloc, "no memory for the layout");
    };
    match verify(alloc, program, layout) {
        Ok(_) => String::from_str(alloc, "accepted"),
        Err(error) => format!(in alloc; "error {}: {error}", error.number()),
    }
}

fn schedule_answer(alloc: Global, text: &[u8]) -> Result<String, AllocError> {
    match read_schedule(alloc, text) {
        Ok(items) => format!(in alloc; "{} events", count_events(items.as_slice())),
        Err(error) => format!(in alloc; "error {}: {error}", error.number()),
    }
}

/// How many events items represent.
fn count_events(items: &[Item]) -> usize {
    let mut events = 0usize;
    for item in items {
        events = events.saturating_add(item.count);
    }
    events
}
