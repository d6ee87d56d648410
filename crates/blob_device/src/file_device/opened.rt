// The list of the blobs that a device over files has opened.
ghost use Rattle.std.specs.Prelude.{◌≡◌, None, OnOk, OnErr};
ghost use Rattle.std.specs.Option.{option_map};
ghost use Rattle.blob_device.specs.Opened.{entered, updated, left, with_len, one_more_read, reads_of};

use crate::table::Table;
use std::alloc::{AllocError, Global};

/// An opened blob: its length in bytes, and how many reads began on it, up to the end of a u64.
#[derive(Clone, Copy)]
pub struct Entry {
    /// The blob's length in bytes, as the calls left it.
    pub len: u64,
    /// How many reads began on it, up to the end of a u64.
    pub reads: u64,
}

/// The opened blobs.
#[derive(Drop)]
pub struct OpenedBlobs {
    /// Where memory for the list comes from.
    alloc: Global,
    /// The entry of each opened blob, and of no other (`listed`).
    entries: Table<Entry>,
}

impl OpenedBlobs {
    ghost use Rattle.blob_device.specs.Listed.{shown, listed};

    /// An empty list. It takes no memory.
    pub fn new(alloc: Global) -> OpenedBlobs
        ensures { listed result ≡ (λ _. None) }
    {
        OpenedBlobs {
            alloc,
            entries: Table::new(alloc),
        }
    }

    /// The entry of a blob, where it is opened.
    pub fn get(&self, partition: &str, name: &[u8]) -> Option<Entry>
        ensures { option_map shown result ≡ listed self.now (partition.now, name.now) }
    {
        self.entries.get(partition.as_bytes(), name).copied()
    }

    /// Puts the blob into the list with this length. The number of its reads goes on where it was there. Where it finds no
    /// memory, nothing changes.
    pub fn enter(&mut self, partition: &str, name: &[u8], len: u64) -> Result<(), AllocError>
        ensures ok { OnOk result (listed self.new ≡ entered (listed self.old) (partition.now, name.now) len) }
        ensures err { OnErr result (listed self.new ≡ listed self.old) }
    {
        let reads = self.reads(partition, name);
        let entry = Entry { len, reads };
        self.entries
            .insert(self.alloc, partition.as_bytes(), name, entry)
    }

    // How many reads began on the blob since it was opened.
    fn reads(&self, partition: &str, name: &[u8]) -> u64
        ensures { result ≡ reads_of (listed self.now (partition.now, name.now)) }
    {
        match self.get(partition, name) {
            Some(entry) => entry.reads,
            None => 0,
        }
    }

    /// Gives the blob this length in the list, where it is opened.
    pub fn set_len(&mut self, partition: &str, name: &[u8], len: u64)
        ensures { listed self.new ≡ updated (listed self.old) (partition.now, name.now) (with_len len) }
    {
        if let Some(entry) = self.get(partition, name) {
            let entry = Entry { len, ..entry };
            self.entries.replace(partition.as_bytes(), name, entry);
        }
    }

    /// Counts a read of the blob, where it is opened.
    pub fn begin_read(&mut self, partition: &str, name: &[u8])
        ensures { listed self.new ≡ updated (listed self.old) (partition.now, name.now) one_more_read }
    {
        if let Some(entry) = self.get(partition, name) {
            let reads = entry.reads.saturating_add(1);
            let entry = Entry { reads, ..entry };
            self.entries.replace(partition.as_bytes(), name, entry);
        }
    }

    /// Takes the blob out of the list.
    pub fn leave(&mut self, partition: &str, name: &[u8])
        ensures { listed self.new ≡ left (listed self.old) (partition.now, name.now) }
    {
        self.entries.remove(partition.as_bytes(), name);
    }
}
