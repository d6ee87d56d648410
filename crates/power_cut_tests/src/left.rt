// What stands below a root folder of a disk: the blobs of a device over it.
use crate::disk::{Disk, Node};
use crate::stop::Stop;
use blob_device::{Image, Memory};
use std::alloc::Global;

/// A blob that stands in a file.
#[derive(Drop)]
pub struct Left {
    /// Its partition, the name of a folder.
    pub partition: String,
    /// Its name: the file's name has it in hexadecimal.
    pub name: Vec<u8>,
    /// What the file has.
    pub bytes: Vec<u8>,
}

/// The blobs below the root, as they read.
pub fn blobs_below(disk: &Disk, root: &str) -> Result<Vec<Left>, Stop> {
    let alloc = disk.alloc;
    let mut blobs = Vec::new(alloc);
    let Ok(root) = disk.find(root) else {
        return Ok(blobs);
    };
    if let Some(Node::Folder(folder)) = disk.node(root) {
        for named in folder.names.iter() {
            add_partition(alloc, disk, named.name.as_str(), named.node, &mut blobs)?;
        }
    }
    Ok(blobs)
}

// Adds the blobs of a partition, where the number is a folder's. Files whose name is not hexadecimal are passed over.
fn add_partition(
    alloc: Global,
    disk: &Disk,
    partition: &str,
    node: usize,
    blobs: &mut Vec<Left>,
) -> Result<(), Stop> {
    let Some(Node::Folder(folder)) = disk.node(node) else {
        return Ok(());
    };
    for named in folder.names.iter() {
        if let Ok(name) = hex::decode(alloc, named.name.as_str()) {
            blobs.push(Left {
                partition: String::from_str(alloc, partition)?,
                name,
                bytes: disk.bytes(named.node).to_vec(alloc)?,
            })?;
        }
    }
    Ok(())
}

/// The blobs as an image.
pub fn image_of(alloc: Global, blobs: &[Left]) -> Result<Image, Stop> {
    let mut image = Image::new(alloc);
    for blob in blobs {
        image.set_blob(blob.partition.as_str(), &blob.name, &blob.bytes)?;
    }
    Ok(image)
}

/// A device in memory over a copy of the image, by which the plain programs read it.
pub fn device(alloc: Global, image: &Image) -> Result<Memory, Stop> {
    Ok(Memory::from_image(alloc, image.copy(alloc)?)?)
}
