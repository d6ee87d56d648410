// Images, and devices over them. Each of these calls fails for want of memory alone.
use blob_device::{CrashChoice, Image, Memory};
use std::alloc::{AllocError, Global};

/// What the device shows.
pub fn image_of(alloc: Global, dev: &Memory) -> Result<Image, AllocError> {
    match dev.image(alloc) {
        Ok(image) => Ok(image),
        Err(_) => Err(AllocError),
    }
}

/// What a crash leaves.
pub fn crash_of(alloc: Global, dev: &Memory, choice: CrashChoice) -> Result<Image, AllocError> {
    match dev.pick_crash(alloc, choice) {
        Ok(image) => Ok(image),
        Err(_) => Err(AllocError),
    }
}

/// Another image that holds the same.
pub fn copy_of(alloc: Global, image: &Image) -> Result<Image, AllocError> {
    match image.copy(alloc) {
        Ok(image) => Ok(image),
        Err(_) => Err(AllocError),
    }
}

/// A device that begins with the image, on which no call was made.
pub fn device_over(alloc: Global, image: Image) -> Result<Memory, AllocError> {
    match Memory::from_image(alloc, image) {
        Ok(dev) => Ok(dev),
        Err(_) => Err(AllocError),
    }
}

/// Gives the image a blob with these bytes.
pub fn set_blob(
    image: &mut Image,
    partition: &str,
    name: &[u8],
    bytes: &[u8],
) -> Result<(), AllocError> {
    match image.set_blob(partition, name, bytes) {
        Ok(()) => Ok(()),
        Err(_) => Err(AllocError),
    }
}
