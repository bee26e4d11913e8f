//! The calls of a thread that have not returned.

ghost use Rattle.std.specs.Prelude.{◌≡◌, [], List, OnOk};
ghost use Rattle.end_explanations.specs.Callers.{callers_after, follow_calls};

use event_trace::Position;
use std::alloc::{AllocError, Global};
use std::marker::Model;

/// Where a thread was at each of its calls that have not returned, the outermost first. A `newobj` calls its constructor.
#[derive(Drop)]
pub(crate) struct Callers {
    positions: Vec<Position>,
}

impl Model for Callers {
    ghost use Rattle.std.specs.Prelude.{List};
    ghost use Rattle.event_trace.specs.interleaving_core.declared.positions.Position.{Position};

    ghost Value = { List Position };

    ghost view = { λ callers. callers.positions.items };
}

impl Callers {
    /// No calls. Allocates nothing.
    pub(crate) fn new(alloc: Global) -> Callers
        ensures { result ≡ [] }
    {
        Callers {
            positions: Vec::new(alloc),
        }
    }

    /// The positions, the outermost first.
    pub(crate) fn positions(&self) -> &[Position]
        ensures { result.now ≡ self.now }
    {
        self.positions.as_slice()
    }

    /// Updates the calls for a step of the thread from one position to another: a step that adds a frame is a call, and one that removes frames returns from
    /// the calls that made them. Fails only if there is no memory for a call; nothing is changed then.
    pub(crate) fn follow(&mut self, before: Position, after: Position) -> Result<(), AllocError>
        ensures { OnOk result (self.new ≡ callers_after self.old before after) }
    {
        if before.frames < after.frames {
            self.positions.push(before)?;
        } else {
            self.positions.truncate(after.frames.saturating_sub(1));
        }
        Ok(())
    }
}

/// Updates the calls of the thread of a number for its step from one position to another. Nothing changes for a thread without a position before or after.
pub(crate) fn follow(
    callers: &mut Vec<Callers>,
    thread: u8,
    before: Option<Position>,
    after: Option<Position>,
) -> Result<(), AllocError>
    ensures { OnOk result (callers.new.items ≡ follow_calls callers.old.items thread before after) }
{
    let (Some(before), Some(after)) = (before, after) else {
        return Ok(());
    };
    let thread = usize::from(thread);
    if thread < callers.len() {
        callers[thread].follow(before, after)?;
    }
    Ok(())
}
