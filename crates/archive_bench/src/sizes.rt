// How many bytes the blobs of a device have.

use blob_device::DevError;
use std::alloc::{AllocError, Global};
use std::collections::BTreeMap;

/// The lengths of blobs, as the calls of a device make them.
#[derive(Drop)]
pub struct Sizes {
    // for the keys of lengths
    alloc: Global,
    // of each blob that was opened, and not removed since: its length, by partition and name
    lengths: BTreeMap<Vec<u8>, u64>,
    // the sum of these
    sum: u64,
    // the greatest that the sum was
    greatest: u64,
    // whether there was no memory for a length: then both sums say too little
    has_gaps: bool,
}

impl Sizes {
    /// No blob was opened. It takes no memory.
    pub fn new(alloc: Global) -> Sizes {
        Sizes {
            alloc,
            lengths: BTreeMap::new(alloc),
            sum: 0,
            greatest: 0,
            has_gaps: false,
        }
    }

    /// How many bytes all blobs have.
    pub fn sum(&self) -> u64 {
        self.sum
    }

    /// The most bytes that they had at once.
    pub fn greatest(&self) -> u64 {
        self.greatest
    }

    /// Whether there was no memory to know each length.
    pub fn has_gaps(&self) -> bool {
        self.has_gaps
    }

    /// A blob was opened, and has this length, unless the device failed.
    pub fn enter_opened(&mut self, partition: &str, name: &[u8], opened: &Result<u64, DevError>) {
        if let Ok(len) = opened {
            self.set(partition, name, *len);
        }
    }

    /// A blob has this length.
    pub fn set(&mut self, partition: &str, name: &[u8], len: u64) {
        let entered = self.enter(partition, name, len);
        self.keep_gap(entered);
    }

    /// A blob has bytes up to here at the least.
    pub fn reach(&mut self, partition: &str, name: &[u8], end: u64) {
        let entered = self.extend(partition, name, end);
        self.keep_gap(entered);
    }

    /// A blob is removed.
    pub fn forget(&mut self, partition: &str, name: &[u8]) {
        let entered = self.take(partition, name);
        self.keep_gap(entered);
    }

    fn keep_gap(&mut self, entered: Result<(), AllocError>) {
        if entered.is_err() {
            self.has_gaps = true;
        }
    }

    fn enter(&mut self, partition: &str, name: &[u8], len: u64) -> Result<(), AllocError> {
        let key = key_of(self.alloc, partition, name)?;
        let before = self.lengths.insert(key, len)?.unwrap_or(0);
        self.sum = self.sum.saturating_sub(before).saturating_add(len);
        self.greatest = self.greatest.max(self.sum);
        Ok(())
    }

    fn extend(&mut self, partition: &str, name: &[u8], end: u64) -> Result<(), AllocError> {
        let key = key_of(self.alloc, partition, name)?;
        let len = self.lengths.get(key.as_slice()).copied().unwrap_or(0);
        if end > len {
            return self.enter(partition, name, end);
        }
        Ok(())
    }

    fn take(&mut self, partition: &str, name: &[u8]) -> Result<(), AllocError> {
        let key = key_of(self.alloc, partition, name)?;
        let before = self.lengths.remove(key.as_slice()).unwrap_or(0);
        self.sum = self.sum.saturating_sub(before);
        Ok(())
    }
}

// What a blob is entered under: no partition has the byte 0 in its name.
fn key_of(alloc: Global, partition: &str, name: &[u8]) -> Result<Vec<u8>, AllocError> {
    let mut key = partition.as_bytes().to_vec(alloc)?;
    key.push(0)?;
    key.extend_from_slice(name)?;
    Ok(key)
}
