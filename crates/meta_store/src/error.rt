// What the calls of the map refuse with.
ghost use Rattle.std.specs.Prelude.{◌≡◌};
ghost use Rattle.meta_store.specs.declared.error.Error.TheVariants.{Mem};
ghost use Rattle.meta_store.specs.Errors.{raised, passed_on};

use blob_device::{DevError, RError};
use std::alloc::{AllocError, AllocFailed};

/// One of the two copies, named by its blob.
#[derive(Clone, Copy, Debug, PartialEq, Eq, thiserror::Error)]
pub enum Side {
    /// The copy in the blob `left`.
    #[error("left")]
    Left,
    /// The copy in the blob `right`.
    #[error("right")]
    Right,
}

impl Side {
    ghost use Rattle.meta_store.specs.Blobs.{name_of, other_side};

    /// The name of its blob.
    pub(crate) fn name(self) -> &'static [u8]
        ensures { result.now ≡ name_of self }
    {
        match self {
            Side::Left => b"left",
            Side::Right => b"right",
        }
    }

    /// The side of the other copy.
    pub(crate) fn other(self) -> Side
        ensures { result ≡ other_side self }
    {
        match self {
            Side::Left => Side::Right,
            Side::Right => Side::Left,
        }
    }
}

/// Why a call of the map failed.
#[derive(Clone, Copy, Debug, PartialEq, Eq, thiserror::Error)]
pub enum Error {
    /// The device failed, and its count of faults rose in this call.
    #[error("{0}")]
    Runtime(RError),
    /// The copy is sealed, but it is no text of a map, or it is the right one and has the version of the left one.
    #[error("the {0} copy of the map is damaged")]
    Corruption(Side),
    /// The next version would pass the greatest `u64`. Nothing was written.
    #[error("the map has no next version")]
    Full,
    /// There was no memory for the call.
    #[error("there was no memory")]
    Mem,
}

impl From<AllocError> for Error {
    ghost from_gives = { λ _ e. e ≡ Mem };

    fn from(_e: AllocError) -> Error {
        Error::Mem
    }
}

impl<T: Drop> From<AllocFailed<T>> for Error {
    ghost from_gives = { λ _ e. e ≡ Mem };

    fn from(_e: AllocFailed<T>) -> Error {
        Error::Mem
    }
}

impl From<RError> for Error {
    ghost from_gives = { λ e r. r ≡ passed_on e };

    fn from(e: RError) -> Error {
        match e {
            RError::Mem => Error::Mem,
            other => Error::Runtime(other),
        }
    }
}

impl From<DevError> for Error {
    ghost from_gives = { λ e r. r ≡ raised e };

    fn from(e: DevError) -> Error {
        match e {
            DevError::Fault => Error::Runtime(RError::Fault),
            DevError::Mem => Error::Mem,
        }
    }
}
