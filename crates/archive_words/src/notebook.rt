// What was taken off blobs, call by call.

use std::alloc::{AllocError, Global};
use std::collections::BTreeMap;
use std::fmt;

/// How many notes of cuts are kept, and how many of removals. Of further ones only their number is. A prune
/// removes many blobs, and so no cut goes unsaid for them.
pub const MOST_NOTES: u64 = 1000;

// How many bytes a page's slot has. A write of so many zeros voids a slot, which cuts the page. It is never a part of a page's
// data: that is written in records and pages, whose lengths the program has as multiples of four.
const SLOT_BYTES: usize = 6;

/// What a call took off a blob.
#[derive(Clone, Copy, Debug, PartialEq, Eq)]
pub enum Loss {
    /// The blob was cut, from one length in bytes to another.
    Cut {
        /// The length before.
        from: u64,
        /// The length after.
        to: u64,
    },
    /// A slot inside the blob was voided: zeros were written over so many of its bytes.
    Erased {
        /// Where they begin.
        at: u64,
        /// How many they are.
        bytes: u64,
    },
    /// The blob was removed, with all its bytes.
    Removed {
        /// The length before.
        from: u64,
    },
}

/// That a call took something off a blob.
#[derive(Debug, Drop)]
pub struct Note {
    /// How many calls the device had counted before this one.
    pub call: u64,
    /// The blob's file, below the folder of the device.
    pub path: String,
    /// What was taken.
    pub loss: Loss,
}

impl fmt::Display for Note {
    fn fmt<W: fmt::Write>(&self, f: &mut fmt::Formatter<W>) -> fmt::Result {
        let path = self.path.as_str();
        match self.loss {
            Loss::Cut { from, to } => write!(f, "cut {path} from {from} to {to} bytes"),
            Loss::Erased { at, bytes } => {
                write!(
                    f,
                    "cut {path} inside a page, by zeros over {bytes} bytes at {at}"
                )
            }
            Loss::Removed { from } => write!(f, "removed {path}, which had {from} bytes"),
        }
    }
}

/// What was taken off blobs, in the order of the calls.
///
/// The lengths are those of the blobs that had bytes when they were opened last: a blob that was empty has nothing to lose that was there before.
#[derive(Drop)]
pub struct Notebook {
    // for notes, and for the paths of blobs
    alloc: Global,
    // of each blob that had bytes at its last opening: its length, as openings, writes and cuts give it
    lengths: BTreeMap<Vec<u8>, u64>,
    // the first cuts and the first removals that came, in the order of the calls
    notes: Vec<Note>,
    // how many cuts came
    cuts: u64,
    // how many removals came
    removals: u64,
    // whether there was no memory for a note or a length: what was taken off may then go unsaid
    has_gaps: bool,
}

impl Notebook {
    /// An empty notebook. It takes no memory.
    pub fn new(alloc: Global) -> Notebook {
        Notebook {
            alloc,
            lengths: BTreeMap::new(alloc),
            notes: Vec::new(alloc),
            cuts: 0,
            removals: 0,
            has_gaps: false,
        }
    }

    /// The notes, at most [`MOST_NOTES`] of cuts, and as many of removals.
    pub fn notes(&self) -> &[Note] {
        self.notes.as_slice()
    }

    /// How many cuts more there were.
    pub fn further_cuts(&self) -> u64 {
        self.cuts.saturating_sub(MOST_NOTES)
    }

    /// How many removals more there were.
    pub fn further_removals(&self) -> u64 {
        self.removals.saturating_sub(MOST_NOTES)
    }

    /// Whether there was no memory to note all.
    pub fn has_gaps(&self) -> bool {
        self.has_gaps
    }

    /// A blob was opened with this length.
    pub fn enter_open(&mut self, partition: &str, name: &[u8], len: u64) {
        let entered = self.set_len(partition, name, len);
        self.keep_gap(entered);
    }

    /// These bytes were written over a blob, at this call.
    pub fn enter_write(&mut self, call: u64, partition: &str, name: &[u8], write: (u64, &[u8])) {
        let entered = self.note_write(call, partition, name, write);
        self.keep_gap(entered);
    }

    /// A blob was given this length, at this call.
    pub fn enter_resize(&mut self, call: u64, partition: &str, name: &[u8], len: u64) {
        let entered = self.note_resize(call, partition, name, len);
        self.keep_gap(entered);
    }

    /// A blob was removed, at this call.
    pub fn enter_remove(&mut self, call: u64, partition: &str, name: &[u8]) {
        let entered = self.note_remove(call, partition, name);
        self.keep_gap(entered);
    }

    fn keep_gap(&mut self, entered: Result<(), AllocError>) {
        if entered.is_err() {
            self.has_gaps = true;
        }
    }

    fn set_len(&mut self, partition: &str, name: &[u8], len: u64) -> Result<(), AllocError> {
        let path = path_of(self.alloc, partition, name)?;
        if len == 0 {
            self.lengths.remove(path.as_bytes());
        } else {
            let key = path.as_bytes().to_vec(self.alloc)?;
            self.lengths.insert(key, len)?;
        }
        Ok(())
    }

    fn note_write(
        &mut self,
        call: u64,
        partition: &str,
        name: &[u8],
        (offset, bytes): (u64, &[u8]),
    ) -> Result<(), AllocError> {
        let path = path_of(self.alloc, partition, name)?;
        let Some(len) = self.lengths.get_mut(path.as_bytes()) else {
            return Ok(());
        };
        let end = offset.saturating_add(bytes.len() as u64);
        if end > *len {
            *len = end;
            return Ok(());
        }
        if bytes.len() == SLOT_BYTES && bytes.iter().all(|b| *b == 0) {
            let loss = Loss::Erased {
                at: offset,
                bytes: bytes.len() as u64,
            };
            return self.push(Note { call, path, loss });
        }
        Ok(())
    }

    fn note_resize(
        &mut self,
        call: u64,
        partition: &str,
        name: &[u8],
        to: u64,
    ) -> Result<(), AllocError> {
        let path = path_of(self.alloc, partition, name)?;
        let Some(len) = self.lengths.get_mut(path.as_bytes()) else {
            return Ok(());
        };
        let from = *len;
        *len = to;
        if to < from {
            let loss = Loss::Cut { from, to };
            return self.push(Note { call, path, loss });
        }
        Ok(())
    }

    fn note_remove(&mut self, call: u64, partition: &str, name: &[u8]) -> Result<(), AllocError> {
        let path = path_of(self.alloc, partition, name)?;
        match self.lengths.remove(path.as_bytes()) {
            Some(from) => self.push(Note {
                call,
                path,
                loss: Loss::Removed { from },
            }),
            None => Ok(()),
        }
    }

    fn push(&mut self, note: Note) -> Result<(), AllocError> {
        let count = match note.loss {
            Loss::Cut { .. } | Loss::Erased { .. } => &mut self.cuts,
            Loss::Removed { .. } => &mut self.removals,
        };
        *count = count.saturating_add(1);
        if *count <= MOST_NOTES {
            self.notes.push(note)?;
        }
        Ok(())
    }
}

// The file of a blob, below the folder of a device over files.
fn path_of(alloc: Global, partition: &str, name: &[u8]) -> Result<String, AllocError> {
    let name = hex::encode(alloc, name)?;
    format!(in alloc; "{partition}/{name}")
}
