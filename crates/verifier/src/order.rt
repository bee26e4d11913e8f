//! The order in which the pcs of a method are taken. No contract speaks of it, since what a search finds is the same in every order: it
//! is found in few rounds where each pc is after those from which control reaches it, but for the ways back of loops.

use crate::ways::ways_on;
use cil_model::limits::MOST_TARGETS;
use cil_model::memory::NoMemory;
use resolved_code::operations::Operation;
use std::alloc::Global;

/// A step of a walk through the pcs to which control may go.
#[derive(Clone, Copy)]
enum Step {
    /// To a pc.
    Enter(usize),
    /// Back from a pc, when all pcs that are reached from it were walked through.
    Leave(usize),
}

/// Reaches a pc. The pcs that are reached from it are walked through before the step back, those further on in the code first, which so
/// are last in the order, since what follows a loop mostly follows it in the code too.
fn enter(
    operations: &[Operation],
    is_entered: &mut [bool],
    pending: &mut Vec<Step>,
    pc: usize,
    alloc: Global,
) -> Result<(), NoMemory> {
    if pc >= is_entered.len() || is_entered[pc] {
        return Ok(());
    }
    let Some(operation) = operations.get(pc) else {
        return Ok(());
    };
    is_entered[pc] = true;
    pending.push(Step::Leave(pc))?;
    let mut ways = ways_on(operation, pc.saturating_add(1), alloc)?;
    ways.sort_unstable();
    for way in ways.as_slice() {
        pending.push(Step::Enter(*way))?;
    }
    Ok(())
}

/// The pcs of a method in the reverse of the order in which a walk from the first pc on returns from them. The only error is
/// out of memory.
pub(crate) fn indices_in_order(
    operations: &[Operation],
    alloc: Global,
) -> Result<Vec<usize>, NoMemory> {
    let mut is_entered = vec![in alloc; false; operations.len()]?;
    let mut pending = vec![in alloc; Step::Enter(0)]?;
    let mut left = Vec::new(alloc);
    for _ in 0..operations.len().saturating_mul(MOST_TARGETS + 3) {
        let Some(step) = pending.pop() else {
            break;
        };
        match step {
            Step::Enter(pc) => enter(
                operations,
                is_entered.as_mut_slice(),
                &mut pending,
                pc,
                alloc,
            )?,
            Step::Leave(pc) => left.push(pc)?,
        }
    }
    left.reverse();
    Ok(left)
}
