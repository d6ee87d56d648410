// The refusals of the buffers over a device, and a sync that is finished.
ghost use Rattle.std.specs.Prelude.{◌≡◌};
ghost use Rattle.blob_device.specs.declared.runtime.RError.TheVariants.{Mem};
ghost use Rattle.blob_device.specs.Errors.{raised};

use crate::DevError;
use std::alloc::{AllocError, AllocFailed};
use thiserror::Error;

/// Why a call of a buffer over a device failed.
#[derive(Clone, Copy, Debug, PartialEq, Eq, Error)]
pub enum RError {
    /// The device failed, and its count of faults rose.
    #[error("the device failed")]
    Fault,
    /// No seal that is stored for this page fits its bytes.
    #[error("no seal of page {0} holds")]
    InvalidChecksum(u64),
    /// The bytes asked for reach past the end of what is held.
    #[error("a blob ends before what was to be read")]
    BlobInsufficientLength,
    /// The end of the range passes the greatest `u64`.
    #[error("a place passes 2^64")]
    OffsetOverflow,
    /// There was no memory for the call.
    #[error("there was no memory")]
    Mem,
}

impl From<AllocError> for RError {
    ghost from_gives = { λ _ e. e ≡ Mem };

    fn from(_: AllocError) -> Self {
        RError::Mem
    }
}

impl<T: Drop> From<AllocFailed<T>> for RError {
    ghost from_gives = { λ _ e. e ≡ Mem };

    fn from(_: AllocFailed<T>) -> Self {
        RError::Mem
    }
}

impl From<DevError> for RError {
    ghost from_gives = { λ e r. r ≡ raised e };

    fn from(e: DevError) -> Self {
        match e {
            DevError::Fault => RError::Fault,
            DevError::Mem => RError::Mem,
        }
    }
}

/// A sync that is finished: what it settled has settled before the handle was given out.
#[derive(Debug, Drop)]
pub struct Handle {}

impl Handle {
    /// The handle of a sync that has returned Ok.
    pub fn finished() -> Handle {
        Handle {}
    }

    /// Returns at once.
    pub fn wait(self) {}
}
