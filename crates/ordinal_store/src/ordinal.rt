//! Values by index, in slots that are sealed one by one.
ghost use Rattle.std.specs.Prelude.{◌≡◌, ◌↔◌, ◌≤◌, ◌^◌, ◌<◌, ℕ, Option, Some, None, IfOk, IsTrue, string_bytes, string_len};
ghost use Rattle.ordinal_store.specs.declared.ordinal.Error.TheVariants.{Mem};
ghost use Rattle.ordinal_store.specs.Raised.{raised, passed_on};

pub use crate::store::Ordinal;
use blob_device::{DevError, RError};
use std::alloc::{AllocError, AllocFailed};
use value_codec::HexName;

/// Why a call on a store of slots failed. One that took the store by value gave it up; its blobs are then opened again.
#[derive(Debug, PartialEq, Eq, Drop, thiserror::Error)]
pub enum Error {
    /// The device failed, and its count of faults rose in this call.
    #[error("{0}")]
    Runtime(RError),
    /// The partition has a blob whose name is not the eight big-endian bytes of a section's number.
    #[error("the blob {0} is no section's: the name of one has 16 digits")]
    InvalidBlobName(HexName),
    /// The slot of this index is there and holds no value, or it stands behind a section that has to be full.
    #[error("the slot of {0} holds no value, or stands behind its section")]
    InvalidRecord(u64),
    /// The slot of this index had to be there, and in a section that has to be full it had to hold a value.
    #[error("the slot of {0} is missing, or holds no value")]
    MissingRecord(u64),
    /// An index that was asked for passes the greatest `u64`. Nothing was written.
    #[error("an index passes 2^64")]
    Full,
    /// There was no memory for the call.
    #[error("there was no memory")]
    Mem,
}

impl From<AllocError> for Error {
    ghost from_gives = { λ _ e. e ≡ Mem };

    fn from(_e: AllocError) -> Error {
        Error::Mem
    }
}

impl<T: Drop> From<AllocFailed<T>> for Error {
    ghost from_gives = { λ _ e. e ≡ Mem };

    fn from(_e: AllocFailed<T>) -> Error {
        Error::Mem
    }
}

impl From<RError> for Error {
    ghost from_gives = { λ e r. r ≡ passed_on e };

    fn from(e: RError) -> Error {
        match e {
            RError::Mem => Error::Mem,
            other => Error::Runtime(other),
        }
    }
}

impl From<DevError> for Error {
    ghost from_gives = { λ e r. r ≡ raised e };

    fn from(e: DevError) -> Error {
        match e {
            DevError::Fault => Error::Runtime(RError::Fault),
            DevError::Mem => Error::Mem,
        }
    }
}

/// Where a store of slots is kept, and how.
#[derive(Drop)]
pub struct Config {
    /// The partition that holds the sections' blobs, and no other blob.
    pub partition: String,
    /// How many slots a section has.
    pub items_per_blob: u64,
    /// From how many bytes on a section's buffer flushes them.
    pub write_buffer: usize,
    /// How many bytes an opening reads at once of a section that has to be full, or one slot where that is more.
    pub replay_buffer: usize,
}

impl Config {
    /// Whether the partition has a name, both buffers are at least 1, and a section has 1 to 2^40 slots. It takes no memory.
    pub fn is_valid(&self) -> bool
        ensures { IsTrue result ↔ ((1 ≤ string_len self.now.partition) × (1 ≤ self.now.items_per_blob)
            × (self.now.items_per_blob ≤ 2 ^ 40) × (1 ≤ self.now.write_buffer) × (1 ≤ self.now.replay_buffer)) }
    {
        !self.partition.is_empty()
            && 1 <= self.items_per_blob
            && self.items_per_blob <= 1 << 40
            && 1 <= self.write_buffer
            && 1 <= self.replay_buffer
    }
}
