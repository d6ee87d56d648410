// What the calls on sections, and the journals above them, refuse with.
ghost use Rattle.std.specs.Prelude.{◌≡◌};
ghost use Rattle.section_manager.specs.declared.journal.Error.TheVariants.{Mem};
ghost use Rattle.section_manager.specs.Raised.{raised, raised_device, raised_codec, raised_metadata};

use blob_device::{DevError, RError};
use std::alloc::{AllocError, AllocFailed};
use value_codec::{HexName, codec};

/// What is lost of a section: how much of it is kept where more was wanted.
///
/// The units are those of the refusing call: bytes, but for a marker, which counts items, and for a record in a section that
/// is not its own, where `kept` and `wanted` name the two sections.
#[derive(Clone, Copy, Debug, PartialEq, Eq, thiserror::Error)]
#[error("section {section} is damaged: {wanted} had to be whole, and {kept} is")]
pub struct Damage {
    /// The damaged section.
    pub section: u64,
    /// What of it is whole.
    pub kept: u64,
    /// What had to be.
    pub wanted: u64,
}

/// Why a call on sections or on a journal failed.
#[derive(Debug, PartialEq, Eq, Drop, thiserror::Error)]
pub enum Error {
    /// A buffer over the device failed. A call that consumed its store gave it up; the blobs are then opened again.
    #[error("{0}")]
    Runtime(RError),
    /// The map of markers beside the sections failed.
    #[error("the map of markers failed: {0}")]
    Metadata(meta_store::Error),
    /// An item does not decode.
    #[error("{0}")]
    Codec(codec::Error),
    /// The partition has a blob whose name is not the eight big-endian bytes of a section's number.
    #[error("the blob {0} is no section's: the name of one has 16 digits")]
    InvalidBlobName(HexName),
    /// No item stands at this position or offset.
    #[error("there is no item at {0}")]
    ItemOutOfRange(u64),
    /// The section is not held.
    #[error("there is no section {0}")]
    SectionOutOfRange(u64),
    /// The section is below this floor, up to which sections were pruned.
    #[error("what was below section {0} is pruned")]
    AlreadyPrunedToSection(u64),
    /// The stored checksum of a value, and the one computed from its bytes.
    #[error("the value is damaged: its seal is {0}, and that of its bytes {1}")]
    ChecksumMismatch(u32, u32),
    /// The value has more bytes than a `u32` can count.
    #[error("the value is too long")]
    ValueTooLarge,
    /// The end of the range passes the greatest `u64`.
    #[error("a place passes 2^64")]
    OffsetOverflow,
    /// Bytes that had to be whole are not.
    #[error("{0}")]
    Corruption(Damage),
    /// The replay was not drained, or gave an error.
    #[error("the items were not read to their end")]
    ReplayFailed,
    /// A section would be longer than the greatest `u64`, or the map of markers has no next version.
    #[error("a section would be too long, or the map of markers has no next version")]
    Full,
    /// There was no memory for the call.
    #[error("there was no memory")]
    Mem,
}

impl From<AllocError> for Error {
    ghost from_gives = { λ _ e. e ≡ Mem };

    fn from(_: AllocError) -> Self {
        Error::Mem
    }
}

impl<T: Drop> From<AllocFailed<T>> for Error {
    ghost from_gives = { λ _ e. e ≡ Mem };

    fn from(_: AllocFailed<T>) -> Self {
        Error::Mem
    }
}

impl From<RError> for Error {
    ghost from_gives = { λ e r. r ≡ raised e };

    fn from(e: RError) -> Self {
        match e {
            RError::Mem => Error::Mem,
            other => Error::Runtime(other),
        }
    }
}

impl From<DevError> for Error {
    ghost from_gives = { λ e r. r ≡ raised_device e };

    fn from(e: DevError) -> Self {
        Error::from(RError::from(e))
    }
}

impl From<codec::Error> for Error {
    ghost from_gives = { λ e r. r ≡ raised_codec e };

    fn from(e: codec::Error) -> Self {
        match e {
            codec::Error::Mem => Error::Mem,
            other => Error::Codec(other),
        }
    }
}

impl From<meta_store::Error> for Error {
    ghost from_gives = { λ e r. r ≡ raised_metadata e };

    fn from(e: meta_store::Error) -> Self {
        match e {
            meta_store::Error::Mem => Error::Mem,
            meta_store::Error::Full => Error::Full,
            other => Error::Metadata(other),
        }
    }
}
