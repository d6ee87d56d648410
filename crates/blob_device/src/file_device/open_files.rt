// The open files of a device, of which there is a bounded number.
use crate::file_device::file::{check_len, synced};
use crate::file_device::places::BlobFile;
use crate::file_device::stop::{Place, Stop, at};
use lru::LruCache;
use std::alloc::{AllocError, Global};
use std::fs::{OpenFile, OpenOptions};
use std::num::NonZeroUsize;
use std::rt::Files;

// A process may have 1,024 files open by default, and the program needs some of its own.
const MOST_OPEN: usize = 256;

/// An open file, which may have writes that are not synced.
#[derive(Drop)]
pub struct Kept<F> {
    /// The open file.
    pub file: F,
    /// Whether it may have writes that are not synced. It is set before a write.
    pub is_written: bool,
}

/// The open files of a device, by the numbers of their places. Those that were used last are kept.
#[derive(Drop)]
pub struct OpenFiles<R: Files + Clone + Drop> {
    /// The runtime that has the files.
    rt: R,
    /// At most `MOST_OPEN` files, by number; the one that was not used the longest goes first. None stands for
    /// a file that is taken out, which comes back without memory.
    kept: LruCache<u64, Option<Kept<R::File>>>,
}

/// Opens a file to read and write it. Where it is absent, it is made if `makes` says so.
pub fn open_file<R: Files>(rt: &R, path: &str, makes: bool) -> Result<R::File, Stop> {
    let mut options = OpenOptions::new();
    options.read(true).write(true).create(makes);
    Ok(options.open(rt, path)?)
}

// Closes a file. Its writes are synced before, since a failure to write them may never be told to who opens it again.
fn close<F: OpenFile + Drop>(kept: Kept<F>) -> Result<(), Stop> {
    if kept.is_written {
        // Before the close: who opens the file again may not be told of a write that failed.
        synced(kept.file.sync_all())?;
    }
    Ok(())
}

// Closes a file, if there is one.
fn closed<F: OpenFile + Drop>(kept: Option<Kept<F>>) -> Result<(), Stop> {
    match kept {
        Some(kept) => close(kept),
        None => Ok(()),
    }
}

impl<R: Files + Clone + Drop> OpenFiles<R> {
    /// No open files.
    pub fn new(rt: &R, alloc: Global) -> Result<Self, AllocError> {
        Ok(OpenFiles {
            rt: rt.clone()?,
            kept: LruCache::new(alloc, NonZeroUsize::new(MOST_OPEN).unwrap())?,
        })
    }

    // Takes a file out of the open ones. Its number stays.
    fn lend(&mut self, number: u64) -> Option<Kept<R::File>> {
        match self.kept.get_mut(&number) {
            Some(kept) => kept.take(),
            None => None,
        }
    }

    /// Takes the file of a blob of this length out of the open ones, or opens it. It comes back by [`keep`](OpenFiles::keep).
    pub fn take(&mut self, place: &BlobFile, len: u64) -> Result<Kept<R::File>, Stop> {
        if let Some(kept) = self.lend(place.number) {
            return Ok(kept);
        }
        let kept = self.open(place, false)?;
        check_len(&kept.file, len)?;
        Ok(kept)
    }

    /// Takes the file of a blob out of the open ones, or opens it, if it is there.
    pub fn find(&mut self, place: &BlobFile) -> Result<Kept<R::File>, Stop> {
        match self.lend(place.number) {
            Some(kept) => Ok(kept),
            None => self.open(place, false),
        }
    }

    /// Opens the file of a blob, which is made if `makes` says so.
    pub fn open(&mut self, place: &BlobFile, makes: bool) -> Result<Kept<R::File>, Stop> {
        self.make_room()?;
        let file = open_file(&self.rt, place.path.as_str(), makes)?;
        Ok(Kept {
            file,
            is_written: false,
        })
    }

    // Closes the file that was not used the longest, where no other could be opened beside it.
    fn make_room(&mut self) -> Result<(), Stop> {
        if self.kept.len() < MOST_OPEN {
            return Ok(());
        }
        match self.kept.pop_lru() {
            Some((number, Some(kept))) => at(Place::File(number), close(kept)),
            _ => Ok(()),
        }
    }

    /// Keeps a file open. Where there is no memory for that, it is closed, and the next call opens it again.
    pub fn keep(&mut self, number: u64, kept: Kept<R::File>) -> Result<(), Stop> {
        match self.kept.push(number, Some(kept)) {
            Ok(Some((number, Some(other)))) => at(Place::File(number), close(other)),
            Ok(_) => Ok(()),
            Err(failed) => closed(failed.value.1),
        }
    }

    /// Closes the file of a blob, which may be gone or not. The next call opens what has its name by then.
    pub fn close(&mut self, number: u64) -> Result<(), Stop> {
        closed(self.kept.pop(&number).flatten())
    }

    /// Closes the file of a blob that is gone. Its bytes went with it.
    pub fn leave(&mut self, number: u64) {
        self.kept.pop(&number);
    }
}
