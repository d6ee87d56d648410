// What a call of a source or a sink may answer.
ghost use Rattle.blob_device.specs.declared.io_fault.IoFault.TheVariants.{Mem};
ghost use Rattle.std.specs.Prelude.{◌≡◌};

use std::alloc::{AllocError, AllocFailed};

/// Why bytes were not read or written.
#[derive(Clone, Copy, Debug, PartialEq, Eq, thiserror::Error)]
pub enum IoFault {
    /// The stream failed. It raised its count of faults.
    #[error("the stream failed")]
    Fault,
    /// There was no memory. Only a sink answers it.
    #[error("there was no memory")]
    Mem,
}

impl From<AllocError> for IoFault {
    ghost from_gives = { λ _ e. e ≡ Mem };

    fn from(_e: AllocError) -> IoFault {
        IoFault::Mem
    }
}

impl<T: Drop> From<AllocFailed<T>> for IoFault {
    ghost from_gives = { λ _ e. e ≡ Mem };

    fn from(_e: AllocFailed<T>) -> IoFault {
        IoFault::Mem
    }
}
