//! Why a picture was not written to its end.

ghost use Rattle.std.specs.Prelude.{◌≡◌};
ghost use Rattle.run_picture.specs.declared.errors.PictureError.TheVariants.{Device as CantWrite, Memory};

use cil_model::memory::NoMemory;
use outputs::Device;

/// Why a picture was not written to its end.
#[derive(Clone, Copy, Debug)]
pub enum PictureError {
    /// Memory ran out, for an event or for the picture.
    Memory,
    /// A write failed.
    Device,
}

impl From<NoMemory> for PictureError {
    ghost from_gives = { λ _ error. error ≡ Memory };

    fn from(_error: NoMemory) -> PictureError {
        PictureError::Memory
    }
}

impl From<Device> for PictureError {
    ghost from_gives = { λ _ error. error ≡ CantWrite };

    fn from(_error: Device) -> PictureError {
        PictureError::Device
    }
}
