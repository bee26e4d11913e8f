//! How the threads of an outcome ended.

ghost use Rattle.std.specs.Prelude.{◌≡◌, ◌++◌, IfOk, OnOk, decimal, length, string_bytes};
ghost use Rattle.std.specs.List.{list_all};
ghost use Rattle.outcome_text.specs.Outcomes.{blocked_below, blocked_lead, early_below, ends_text, is_blocked_below, is_done};

use cil_model::memory::NoMemory;
use cil_model::reports::End;

/// Appends how the threads ended: which are blocked, and which ended early.
pub(crate) fn add_ends(text: &mut String, ends: &[Option<End>]) -> Result<(), NoMemory>
    ensures { OnOk result (string_bytes text.new ≡ string_bytes text.old ++ ends_text ends.now) }
{
    if are_all_done(ends) {
        text.push_str("all threads done; ")?;
        return Ok(());
    }
    let has_blocked = add_blocked(text, ends)?;
    if has_blocked {
        text.push_str("; ")?;
    }
    add_early(text, ends)
}

/// Whether each thread is done.
fn are_all_done(ends: &[Option<End>]) -> bool
    ensures { result ≡ list_all is_done ends.now }
{
    for end in ends {
        if *end != Some(End::Done) {
            return false;
        }
    }
    true
}

/// Appends the numbers of the blocked threads, and returns whether there are any.
fn add_blocked(text: &mut String, ends: &[Option<End>]) -> Result<bool, NoMemory>
    ensures added { OnOk result (string_bytes text.new ≡ string_bytes text.old ++ blocked_below ends.now (length ends.now)) }
    ensures some { IfOk result (λ some. some ≡ is_blocked_below ends.now (length ends.now)) }
{
    let mut has_blocked = false;
    for thread in 0..ends.len() {
        if ends[thread].is_none() {
            add_blocked_number(text, has_blocked, thread)?;
            has_blocked = true;
        }
    }
    Ok(has_blocked)
}

/// Appends the number of a blocked thread, by whether one before it is blocked.
fn add_blocked_number(text: &mut String, has_blocked: bool, thread: usize) -> Result<(), NoMemory>
    ensures { OnOk result (string_bytes text.new ≡ string_bytes text.old ++ (blocked_lead has_blocked ++ decimal thread)) }
{
    let lead = if has_blocked {
        ", "
    } else {
        "deadlock: threads "
    };
    write!(text, "{lead}{thread}")?;
    Ok(())
}

/// Appends the threads that ended early.
fn add_early(text: &mut String, ends: &[Option<End>]) -> Result<(), NoMemory>
    ensures { OnOk result (string_bytes text.new ≡ string_bytes text.old ++ early_below ends.now (length ends.now)) }
{
    for thread in 0..ends.len() {
        let end = ends[thread];
        match end {
            Some(End::Budget) => write!(text, "thread {thread}: budget; ")?,
            Some(End::Fault(fault)) => write!(text, "thread {thread}: {fault}; ")?,
            Some(End::Done) | None => {}
        }
    }
    Ok(())
}
