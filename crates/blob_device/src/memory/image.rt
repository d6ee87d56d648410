// What stands on a device: a finite map from partition and name to bytes.
ghost use Rattle.std.specs.Prelude.{◌≡◌, List, ℕ, Option, Some, None, OnOk, OnErr, IfOk};
ghost use Rattle.std.specs.Option.{option_copied, option_map};
ghost use Rattle.blob_device.specs.Disk.{put, reads};
ghost use Rattle.blob_device.specs.Calls.{now, started, Track};
ghost use Rattle.blob_device.specs.Tracks.{track_of};

use crate::DevError;
use crate::memory::blob_log::BlobLog;
use crate::memory::build::{Make, build_table};
use crate::table::Table;
use std::alloc::{AllocError, Global};

/// The bytes of each blob that is there. A partition exists exactly if a blob stands in it.
#[derive(Drop)]
pub struct Image {
    /// Where memory for the blobs comes from.
    alloc: Global,
    /// The bytes of each blob that is there (`contents`).
    pub(crate) blobs: Table<Vec<u8>>,
}

impl Image {
    ghost use Rattle.blob_device.specs.Images.{contents};

    /// An image without blobs. It takes no memory.
    pub fn new(alloc: Global) -> Image
        ensures { contents result ≡ (λ _. None) }
    {
        Image {
            alloc,
            blobs: Table::new(alloc),
        }
    }

    /// The bytes of the blob, or None where it is not there.
    pub fn blob(&self, partition: &str, name: &[u8]) -> Option<&[u8]>
        ensures { option_copied result ≡ contents self.now (partition.now, name.now) }
    {
        match self.blobs.get(partition.as_bytes(), name) {
            Some(bytes) => Some(bytes.as_slice()),
            None => None,
        }
    }

    /// Puts a blob with these bytes, in place of the one that is there.
    pub fn set_blob(&mut self, partition: &str, name: &[u8], bytes: &[u8]) -> Result<(), DevError>
        ensures ok { OnOk result (contents self.new ≡ put (contents self.old) (partition.now, name.now) (Some bytes.now)) }
        ensures err { OnErr result (contents self.new ≡ contents self.old) }
        ensures memory { OnErr result (result ≡ Err DevError.Mem) }
    {
        let bytes = bytes.to_vec(self.alloc)?;
        self.blobs
            .insert(self.alloc, partition.as_bytes(), name, bytes)?;
        Ok(())
    }

    /// Takes the blob away. It takes no memory.
    pub fn drop_blob(&mut self, partition: &str, name: &[u8])
        ensures { contents self.new ≡ put (contents self.old) (partition.now, name.now) None }
    {
        self.blobs.remove(partition.as_bytes(), name);
    }

    /// The same image, by this allocator.
    pub fn copy(&self, alloc: Global) -> Result<Image, DevError>
        ensures ok { IfOk result (λ i. contents i ≡ contents self.now) }
        ensures memory { OnErr result (result ≡ Err DevError.Mem) }
    {
        let blobs = build_table(alloc, &self.blobs, &mut Copier {})?;
        Ok(Image { alloc, blobs })
    }
}

impl Image {
    ghost use Rattle.blob_device.specs.Tables.{at_key};
    ghost use Rattle.blob_device.specs.Images.{contents};

    /// The image with these blobs.
    pub(crate) fn from_table(alloc: Global, blobs: Table<Vec<u8>>) -> Image
        ensures { contents result ≡ (λ k. option_map (λ v. v.items) (at_key blobs.partitions k)) }
    {
        Image { alloc, blobs }
    }
}

/// Copies bytes.
#[derive(Drop)]
struct Copier {}

impl Make<Vec<u8>, Vec<u8>> for Copier {
    ghost Seen = { List ℕ };

    ghost sees = { λ v. v.items };

    ghost makes = { λ _ v. Some v.items };

    ghost next = { λ s _. s };

    fn make(&mut self, alloc: Global, value: &Vec<u8>) -> Result<Option<Vec<u8>>, AllocError> {
        Ok(Some(value.as_slice().to_vec(alloc)?))
    }
}

/// Begins the log of a blob that is there when the device is made.
#[derive(Drop)]
pub(crate) struct Starter {}

impl Make<Vec<u8>, BlobLog> for Starter {
    ghost Seen = { Track };

    ghost sees = { track_of };

    ghost makes = { λ _ v. Some (started v.items) };

    ghost next = { λ s _. s };

    fn make(&mut self, alloc: Global, value: &Vec<u8>) -> Result<Option<BlobLog>, AllocError> {
        Ok(Some(BlobLog::started(alloc, value.as_slice())?))
    }
}

/// Gives each blob as it reads.
#[derive(Drop)]
pub(crate) struct AsRead {}

impl Make<BlobLog, Vec<u8>> for AsRead {
    ghost Seen = { List ℕ };

    ghost sees = { λ v. v.items };

    ghost makes = { λ _ l. reads (now (track_of l)) };

    ghost next = { λ s _. s };

    fn make(&mut self, alloc: Global, value: &BlobLog) -> Result<Option<Vec<u8>>, AllocError> {
        value.as_read(alloc)
    }
}
