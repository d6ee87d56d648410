// The log on a device.
use append_log::{Appended, LogError, append, append_all};
use blob_device::{CrashChoice, DevError, Device, Memory};
use std::alloc::Global;

/// Opens the log, and appends a record to it.
pub fn add(dev: &mut Memory, record: &[u8]) -> Result<(), LogError> {
    dev.open_blob("p", b"log")?;
    append(dev, "p", b"log", record)
}

/// Opens the log, and appends the records to it.
pub fn grow(alloc: Global, dev: &mut Memory, records: &[Vec<u8>]) -> Appended {
    match dev.open_blob("p", b"log") {
        Ok(_) => append_all(alloc, dev, "p", b"log", records),
        Err(error) => Appended {
            marks: Vec::new(alloc),
            result: Err(LogError::Device(error)),
        },
    }
}

/// The bytes of the log that a crash now may leave, or none where it is not there.
pub fn left(alloc: Global, dev: &Memory, choice: CrashChoice) -> Result<Option<Vec<u8>>, DevError> {
    let image = dev.pick_crash(alloc, choice)?;
    match image.blob("p", b"log") {
        Some(bytes) => Ok(Some(bytes.to_vec(alloc)?)),
        None => Ok(None),
    }
}
