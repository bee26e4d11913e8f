//! Why a trace was not written to its end.

ghost use Rattle.std.specs.Prelude.{◌≡◌};
ghost use Rattle.event_trace.specs.declared.errors.TraceError.TheVariants.{Device as CantWrite, Memory};

use cil_model::memory::NoMemory;
use outputs::Device;
use thiserror::Error;

/// Why a trace was not written to its end.
#[derive(Clone, Copy, Debug, PartialEq, Eq, Error)]
pub enum TraceError {
    /// Memory ran out, for an event or for what is written of it.
    #[error("out of memory")]
    Memory,
    /// A write failed.
    #[error("a write failed")]
    Device,
}

impl From<NoMemory> for TraceError {
    ghost from_gives = { λ _ error. error ≡ Memory };

    fn from(_error: NoMemory) -> TraceError {
        TraceError::Memory
    }
}

impl From<Device> for TraceError {
    ghost from_gives = { λ _ error. error ≡ CantWrite };

    fn from(_error: Device) -> TraceError {
        TraceError::Device
    }
}
