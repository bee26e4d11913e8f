//! Bytes that are put together, and written in pieces.

ghost use Rattle.std.specs.Prelude.{◌≡◌, ◌<◌, ◌++◌, ◌∷◌, [], length, OnErr, OnOk};
ghost use Rattle.outputs.specs.Streams.{Fails, Takes};
ghost use Rattle.event_trace.specs.Pieces.{TakesAllBut};
ghost use Rattle.event_trace.specs.declared.pieces.TheConstants.{PIECE};

use outputs::{Device, Out};

/// The number of bytes that are put together before they are written.
const PIECE: usize = 32_768;

/// Writes what is pending, once it fills a piece; nothing is pending then. What does not fill one stays, and nothing is written. Where the
/// write fails, a prefix of what was pending is written.
pub(crate) fn write_piece<W: Out>(pending: &mut Vec<u8>, out: &mut W) -> Result<(), Device>
    ensures written { OnOk result (TakesAllBut pending.new.items (W.taken out.old).contents (W.taken out.new).contents pending.old.items) }
    ensures short { OnOk result (length pending.new.items < PIECE) }
    ensures stays { length pending.old.items < PIECE
        → (pending.new.items ≡ pending.old.items) × ((W.taken out.new).contents ≡ (W.taken out.old).contents) }
    ensures kept { OnOk result ((W.taken out.new).failures ≡ (W.taken out.old).failures) }
    ensures cut { OnErr result (Fails (W.taken out.old) (W.taken out.new) pending.old.items) }
{
    if pending.len() < PIECE {
        return Ok(());
    }
    out.write_whole(pending.as_slice())?;
    pending.clear();
    Ok(())
}

/// Writes what is pending, and the empty line that ends a trace. Where a write fails, a prefix of both is written.
pub(crate) fn write_end<W: Out>(pending: &[u8], out: &mut W) -> Result<(), Device>
    ensures whole { OnOk result (Takes (W.taken out.old) (W.taken out.new) (pending.now ++ 10 ∷ [])) }
    ensures cut { OnErr result (Fails (W.taken out.old) (W.taken out.new) (pending.now ++ 10 ∷ [])) }
{
    out.write_whole(pending)?;
    out.write_whole(b"\n")
}
