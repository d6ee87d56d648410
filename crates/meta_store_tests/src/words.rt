// The words by which a scenario names an error.
use blob_device::RError;
use meta_store::{Error, Side};
use std::alloc::{AllocError, Global};

/// The words for an error of the map.
pub fn error_text(alloc: Global, error: Error) -> Result<String, AllocError> {
    match error {
        Error::Runtime(inner) => runtime_text(alloc, inner),
        Error::Corruption(Side::Left) => String::from_str(alloc, "corruption left"),
        Error::Corruption(Side::Right) => String::from_str(alloc, "corruption right"),
        Error::Full => String::from_str(alloc, "full"),
        Error::Mem => String::from_str(alloc, "memory"),
    }
}

// The words for an error of the device, or of a buffer over it.
fn runtime_text(alloc: Global, error: RError) -> Result<String, AllocError> {
    match error {
        RError::Fault => String::from_str(alloc, "runtime fault"),
        RError::InvalidChecksum(page) => format!(in alloc; "runtime invalid-checksum {page}"),
        RError::BlobInsufficientLength => String::from_str(alloc, "runtime insufficient-length"),
        RError::OffsetOverflow => String::from_str(alloc, "runtime offset-overflow"),
        RError::Mem => String::from_str(alloc, "memory"),
    }
}
