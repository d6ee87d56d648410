// How many calls of a device were made, by their kind and by what the blobs keep.

use crate::config::{METADATA_PARTITION, VALUE_PARTITION};
use std::fmt;

/// How many calls were made, and how many bytes they moved. Each number stops at the greatest `u64`.
#[derive(Clone, Copy, Debug, PartialEq, Eq)]
pub struct Counts {
    /// Listings of a partition's names.
    pub scans: u64,
    /// Openings of blobs.
    pub opens: u64,
    /// Reads of blobs.
    pub reads: u64,
    /// Writes of blobs.
    pub writes: u64,
    /// Blobs cut or lengthened.
    pub resizes: u64,
    /// Blobs settled.
    pub syncs: u64,
    /// Blobs removed.
    pub removes: u64,
    /// The bytes that the reads asked for.
    pub bytes_read: u64,
    /// The bytes that the writes gave.
    pub bytes_written: u64,
}

impl Counts {
    /// No calls.
    pub const NONE: Counts = Counts {
        scans: 0,
        opens: 0,
        reads: 0,
        writes: 0,
        resizes: 0,
        syncs: 0,
        removes: 0,
        bytes_read: 0,
        bytes_written: 0,
    };

    /// How many calls these are, of any kind.
    pub fn calls(&self) -> u64 {
        self.scans
            .saturating_add(self.opens)
            .saturating_add(self.reads)
            .saturating_add(self.writes)
            .saturating_add(self.resizes)
            .saturating_add(self.syncs)
            .saturating_add(self.removes)
    }
}

impl fmt::Display for Counts {
    fn fmt<W: fmt::Write>(&self, f: &mut fmt::Formatter<W>) -> fmt::Result {
        write!(
            f,
            "scans {} opens {} reads {} writes {} resizes {} syncs {} removes {}, bytes read {} written {}",
            self.scans,
            self.opens,
            self.reads,
            self.writes,
            self.resizes,
            self.syncs,
            self.removes,
            self.bytes_read,
            self.bytes_written
        )
    }
}

/// The calls of a device since the count began, by the partition that they name.
#[derive(Clone, Copy, Debug, PartialEq, Eq)]
pub struct Tally {
    /// The calls on the blobs of markers.
    pub markers: Counts,
    /// The calls on the blobs of index records.
    pub index: Counts,
    /// The calls on the blobs of values.
    pub values: Counts,
    /// How many pages of index blobs the reads reached into, each time that they did.
    pub index_pages: u64,
}

impl Tally {
    /// No calls.
    pub const NONE: Tally = Tally {
        markers: Counts::NONE,
        index: Counts::NONE,
        values: Counts::NONE,
        index_pages: 0,
    };

    /// How many calls these are, of any kind.
    pub fn calls(&self) -> u64 {
        self.markers
            .calls()
            .saturating_add(self.index.calls())
            .saturating_add(self.values.calls())
    }

    // The counts of a partition.
    pub(crate) fn at(&mut self, partition: &str) -> &mut Counts {
        match partition {
            METADATA_PARTITION => &mut self.markers,
            VALUE_PARTITION => &mut self.values,
            _ => &mut self.index,
        }
    }
}
