// Why an append failed.
ghost use Rattle.std.specs.Prelude.{◌≡◌};
ghost use Rattle.append_log.specs.declared.error.LogError.TheVariants.{Device};

use blob_device::DevError;
use thiserror::Error;

/// Why an append failed. After any of these, open the blob again before the next append.
#[derive(Clone, Copy, Debug, PartialEq, Eq, Error)]
pub enum LogError {
    /// The device failed, or found no memory.
    #[error("{0}")]
    Device(DevError),
    /// The log would be longer than the greatest `u64`.
    #[error("the log is full")]
    Full,
}

impl From<DevError> for LogError {
    ghost from_gives = { λ e l. l ≡ Device e };

    fn from(e: DevError) -> Self {
        LogError::Device(e)
    }
}
