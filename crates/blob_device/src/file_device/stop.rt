// Why a call on the files of a device stopped before it was done.
use std::alloc::{AllocError, AllocFailed};
use std::io;
use thiserror::Error;

/// Which file or folder a call stopped at.
#[derive(Clone, Copy, Debug)]
pub enum Place {
    /// The file of the blob that the call names.
    Blob,
    /// The file of another blob, by its number: it had to be closed.
    File(u64),
    /// The folder of the partition that the call names.
    Partition,
    /// The root, or a folder above it.
    Root,
    /// The file by which a device has the root alone.
    Lock,
}

/// What stopped a call. All but the want of memory are faults of the device.
#[derive(Debug, Drop, Error)]
pub enum Stop {
    /// No folder can have the partition's name.
    #[error("a partition's name has 1 to 64 of the characters a to z, 0 to 9, _ and -")]
    BadPartition,
    /// Another program has the folder.
    #[error("another program uses this folder")]
    InUse,
    /// The file is shorter than the blob has been since it was opened.
    #[error("the file is shorter than the blob")]
    TooShort,
    /// A sync failed. What it was to write may be lost.
    #[error("the sync failed: {1}")]
    Sync(Place, io::Error),
    /// An earlier sync failed.
    #[error("an earlier sync failed, and what it was to write may be lost")]
    Lost,
    /// The system failed.
    #[error("{1}")]
    System(Place, io::Error),
    /// There was no memory.
    #[error("there was no memory")]
    NoMemory,
}

impl Stop {
    /// Where the call stopped.
    pub fn place(&self) -> Place {
        match self {
            Stop::Sync(place, _) | Stop::System(place, _) => *place,
            Stop::InUse => Place::Root,
            Stop::BadPartition | Stop::TooShort | Stop::Lost | Stop::NoMemory => Place::Blob,
        }
    }

    /// The same, where the system failed at this place and not at the blob's file.
    fn moved(self, place: Place) -> Stop {
        match self {
            Stop::Sync(_, error) => Stop::Sync(place, error),
            Stop::System(_, error) => Stop::System(place, error),
            other => other,
        }
    }
}

/// What something came to that was done at this place.
pub fn at<T>(place: Place, done: Result<T, Stop>) -> Result<T, Stop> {
    match done {
        Ok(value) => Ok(value),
        Err(stop) => Err(stop.moved(place)),
    }
}

impl From<io::Error> for Stop {
    fn from(error: io::Error) -> Self {
        if error.kind() == io::ErrorKind::OutOfMemory {
            Stop::NoMemory
        } else {
            Stop::System(Place::Blob, error)
        }
    }
}

impl From<AllocError> for Stop {
    fn from(_: AllocError) -> Self {
        Stop::NoMemory
    }
}

impl<T: Drop> From<AllocFailed<T>> for Stop {
    fn from(_: AllocFailed<T>) -> Self {
        Stop::NoMemory
    }
}
