// Why an archive cannot go on.
ghost use Rattle.std.specs.Prelude.{◌≡◌};
ghost use Rattle.archives.specs.declared.error.Error.TheVariants.{Mem};
ghost use Rattle.archives.specs.Raised.{raised, raised_metadata};

use segments::journal;
use std::alloc::{AllocError, AllocFailed};

/// Why an archive cannot go on. Want of memory, and what is full, are told by variants of their own, whichever layer met them.
#[derive(Debug, PartialEq, Eq, Drop, thiserror::Error)]
pub enum Error {
    /// The records or their values failed.
    #[error("{0}")]
    Journal(journal::Error),
    /// The map of markers failed.
    #[error("the map of markers failed: {0}")]
    Metadata(meta_store::Error),
    /// A record is stored in a section that is not its index's.
    #[error("a record stands in another section than its index belongs to")]
    RecordCorrupted,
    /// A limit would be passed, or a number would pass its type. A put that answers it wrote nothing; one that also syncs, and a sync, may answer it once all has
    /// settled, where the markers have no next version.
    #[error("a limit would be passed, or a number would not fit")]
    Full,
    /// There was no memory. It may come at any growth.
    #[error("there was no memory")]
    Mem,
}

impl From<AllocError> for Error {
    ghost from_gives = { λ _ e. e ≡ Mem };

    fn from(_e: AllocError) -> Error {
        Error::Mem
    }
}

impl<T: Drop> From<AllocFailed<T>> for Error {
    ghost from_gives = { λ _ e. e ≡ Mem };

    fn from(_e: AllocFailed<T>) -> Error {
        Error::Mem
    }
}

impl From<ordinal_store::RMapError> for Error {
    ghost from_gives = { λ _ e. e ≡ Mem };

    fn from(e: ordinal_store::RMapError) -> Error {
        match e {
            ordinal_store::RMapError::Mem => Error::Mem,
        }
    }
}

impl From<meta_store::Error> for Error {
    ghost from_gives = { λ e r. r ≡ raised_metadata e };

    fn from(e: meta_store::Error) -> Error {
        match e {
            meta_store::Error::Mem => Error::Mem,
            meta_store::Error::Full => Error::Full,
            other => Error::Metadata(other),
        }
    }
}

impl From<journal::Error> for Error {
    ghost from_gives = { λ e r. r ≡ raised e };

    fn from(e: journal::Error) -> Error {
        match e {
            journal::Error::Mem => Error::Mem,
            journal::Error::Full => Error::Full,
            journal::Error::Metadata(inner) => Error::from(inner),
            other => Error::Journal(other),
        }
    }
}
