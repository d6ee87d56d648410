// Why a step cannot go on.
use archives::Error;
use blob_device::DevError;
use std::alloc::{AllocError, AllocFailed, Global};
use std::io;

/// Why a step cannot go on.
#[derive(Drop)]
pub enum Stop {
    /// There was no memory.
    Mem,
    /// This is wrong with the step, or was found to be wrong.
    Said(&'static str),
    /// A call by which the step judges was refused.
    Failed(Error),
}

impl From<AllocError> for Stop {
    fn from(_e: AllocError) -> Stop {
        Stop::Mem
    }
}

impl<T: Drop> From<AllocFailed<T>> for Stop {
    fn from(_e: AllocFailed<T>) -> Stop {
        Stop::Mem
    }
}

impl From<Error> for Stop {
    fn from(e: Error) -> Stop {
        match e {
            Error::Mem => Stop::Mem,
            other => Stop::Failed(other),
        }
    }
}

impl From<io::Error> for Stop {
    fn from(_e: io::Error) -> Stop {
        Stop::Said("the disk refused")
    }
}

impl From<DevError> for Stop {
    fn from(e: DevError) -> Stop {
        match e {
            DevError::Mem => Stop::Mem,
            DevError::Fault => Stop::Said("the device failed"),
        }
    }
}

/// What a step says that did what it should.
pub fn ok(alloc: Global) -> Result<String, Stop> {
    Ok(String::from_str(alloc, "ok")?)
}
