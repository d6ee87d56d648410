// Where the blobs of a device stand: the path of each, which is built once.
ghost use Rattle.std.specs.Prelude.{OnOk, IsSome};
ghost use Rattle.blob_device.specs.Tables.{at_key};

use crate::file_device::names::{file_path, joined};
use crate::table::Table;
use std::alloc::{AllocError, Global};

/// The file of a blob: its path, and a number that no other blob of the device has.
#[derive(Drop)]
pub struct BlobFile {
    /// Its number, from 1. No number is given twice.
    pub number: u64,
    /// The path of its file.
    pub path: String,
}

/// The places of blobs below a root folder.
#[derive(Drop)]
pub struct Places {
    /// Where memory for paths comes from.
    alloc: Global,
    /// The path of the root.
    root: String,
    /// The place of each blob that was named and not removed since.
    known: Table<BlobFile>,
    /// How many numbers were given: the last one, up to the end of a u64.
    made: u64,
}

impl Places {
    /// Places below this folder, of which none is known.
    pub fn new(alloc: Global, root: &str) -> Result<Places, AllocError> {
        Ok(Places {
            alloc,
            root: String::from_str(alloc, root)?,
            known: Table::new(alloc),
            made: 0,
        })
    }

    /// The place of a blob.
    pub fn get(&mut self, partition: &str, name: &[u8]) -> Result<&BlobFile, AllocError> {
        self.note(partition, name)?;
        match self.known.get(partition.as_bytes(), name) {
            Some(place) => Ok(place),
            None => unreachable!(),
        }
    }

    // Builds the path of a blob that is not known.
    fn note(&mut self, partition: &str, name: &[u8]) -> Result<(), AllocError>
        ensures { OnOk result (IsSome (at_key self.new.known.partitions (partition.now, name.now))) }
    {
        if self.known.get(partition.as_bytes(), name).is_some() {
            return Ok(());
        }
        let path = self.path(partition, name)?;
        // As many blobs as a u64 counts are never opened.
        self.made = self.made.saturating_add(1);
        let place = BlobFile {
            number: self.made,
            path,
        };
        self.known
            .insert(self.alloc, partition.as_bytes(), name, place)
    }

    /// The path that a blob's file has or would have.
    pub fn path(&self, partition: &str, name: &[u8]) -> Result<String, AllocError> {
        let folder = joined(self.alloc, self.root.as_str(), partition)?;
        file_path(self.alloc, folder.as_str(), name)
    }

    /// The path of the file with this number, where its blob is known.
    pub fn path_of_number(&self, number: u64) -> Option<&str> {
        for names in self.known.partitions.values() {
            for place in names.values() {
                if place.number == number {
                    return Some(place.path.as_str());
                }
            }
        }
        None
    }

    /// Forgets the place of a blob that is gone.
    pub fn forget(&mut self, partition: &str, name: &[u8]) {
        self.known.remove(partition.as_bytes(), name);
    }
}
