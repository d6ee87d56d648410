// The folders of a device: the root and one for each partition.
use crate::file_device::file::synced;
use crate::file_device::names::blob_name;
use crate::file_device::open_files::open_file;
use crate::file_device::root::{Root, make_folder};
use crate::file_device::stop::{Place, Stop, at};
use std::alloc::{AllocError, Global};
use std::collections::BTreeSet;
use std::fs;
use std::fs::OpenFile;
use std::io::ErrorKind;
use std::rt::Files;

/// The lock by which a program has the folder alone.
#[derive(Drop)]
enum Lock<F> {
    /// The folder is shared.
    Unwanted,
    /// The next call takes it.
    Wanted,
    /// It is held as long as this file is open.
    Held(F),
}

/// The root of a device and the folders in it.
#[derive(Drop)]
pub struct Folders<R: Files + Clone + Drop> {
    /// The runtime that has the files.
    rt: R,
    /// Where memory for paths and names comes from.
    alloc: Global,
    /// The root, which is made and settled where it has to be.
    root: Root,
    /// The lock of the root. Once it is held, it stays so.
    lock: Lock<R::File>,
    /// The partitions whose folder was synced into the root, so that its name outlasts a crash.
    rooted: BTreeSet<String>,
    /// The partitions whose names of files outlast a crash. One is taken out before a name changes.
    settled: BTreeSet<String>,
}

// Makes the names in a folder outlast a crash.
fn sync_folder<R: Files>(rt: &R, folder: &str) -> Result<(), Stop> {
    // By a file that is opened for this alone: folders are not among the open files.
    synced(fs::open(rt, folder)?.sync_all())
}

// The same, and whether the folder is there.
fn sync_if_there<R: Files>(rt: &R, folder: &str) -> Result<bool, Stop> {
    match fs::open(rt, folder) {
        Ok(folder) => {
            // Only a folder that is there has names to settle.
            synced(folder.sync_all())?;
            Ok(true)
        }
        Err(e) if e.kind() == ErrorKind::NotFound => Ok(false),
        Err(e) => Err(Stop::from(e)),
    }
}

// The names of the blobs that have a file in the folder, in any order. A folder that is not there has none.
fn names_in<R: Files + Clone + Drop>(
    rt: &R,
    alloc: Global,
    folder: &str,
) -> Result<Vec<Vec<u8>>, Stop> {
    let mut names = Vec::new(alloc);
    let rt = (rt.clone()?, alloc);
    let entries = match fs::read_dir(&rt, folder) {
        Ok(entries) => entries,
        Err(e) if e.kind() == ErrorKind::NotFound => return Ok(names),
        Err(e) => return Err(Stop::from(e)),
    };
    for entry in entries {
        match entry {
            Ok(entry) => {
                if let Some(name) = blob_name(alloc, entry.file_name())? {
                    names.push(name)?;
                }
            }
            // A name that is no text is no blob's.
            Err(e) if e.kind() == ErrorKind::InvalidFilename => {}
            Err(e) => return Err(Stop::from(e)),
        }
    }
    Ok(names)
}

impl<R: Files + Clone + Drop> Folders<R> {
    /// The folders below this one. It touches none. With `alone` the first call takes the lock.
    pub fn new(rt: &R, alloc: Global, root: &str, alone: bool) -> Result<Self, AllocError> {
        Ok(Folders {
            rt: rt.clone()?,
            alloc,
            root: Root::new(alloc, root)?,
            lock: if alone { Lock::Wanted } else { Lock::Unwanted },
            rooted: BTreeSet::new(alloc),
            settled: BTreeSet::new(alloc),
        })
    }

    /// The root.
    pub fn root(&self) -> &Root {
        &self.root
    }

    /// Takes the lock, where it is wanted and not held. The root is made for it, and its name settled where this device made it.
    pub fn enter(&mut self) -> Result<(), Stop> {
        if !matches!(&self.lock, Lock::Wanted) {
            return Ok(());
        }
        let path = self.root.lock_path()?;
        // Before the lock: its file stands in the root.
        at(Place::Root, self.root.make(&self.rt))?;
        match open_file(&self.rt, path.as_str(), true) {
            Ok(file) => {
                self.lock = Lock::Held(file);
                Ok(())
            }
            Err(Stop::System(_, e)) if e.kind() == ErrorKind::WouldBlock => Err(Stop::InUse),
            Err(stop) => at(Place::Lock, Err(stop)),
        }
    }

    /// The names of the blobs in a partition, in any order. What the system lists outlasts a crash, as far as the name of the
    /// partition's folder does.
    pub fn names(&mut self, alloc: Global, partition: &str) -> Result<Vec<Vec<u8>>, Stop> {
        let folder = self.root.path_of(partition)?;
        if !self.settled.contains(partition) {
            // Synced before the names are read: a program that ended may have left a removal that only the system's memory knows.
            if !at(Place::Partition, sync_if_there(&self.rt, folder.as_str()))? {
                return Ok(Vec::new(alloc));
            }
            self.note_settled(partition);
        }
        at(Place::Partition, names_in(&self.rt, alloc, folder.as_str()))
    }

    /// Makes the folder of a partition, where it is absent and not known to be there.
    pub fn make(&mut self, partition: &str) -> Result<(), Stop> {
        if self.rooted.contains(partition) {
            return Ok(());
        }
        let folder = self.root.path_of(partition)?;
        match make_folder(&self.rt, folder.as_str()) {
            Err(Stop::System(_, e)) if e.kind() == ErrorKind::NotFound => {
                at(Place::Root, self.root.make(&self.rt))?;
                // Only now, with the root there.
                at(Place::Partition, make_folder(&self.rt, folder.as_str()))
            }
            made => at(Place::Partition, made),
        }
    }

    /// Makes the names of a partition's files, of its folder, and of the root, outlast a crash. What is known to do so is not synced again;
    /// of what was there before the device was made nothing is known.
    pub fn settle(&mut self, partition: &str) -> Result<(), Stop> {
        // The root's own name comes first: without it all that is in it would be lost with it.
        at(Place::Root, self.root.settle(&self.rt))?;
        if !self.rooted.contains(partition) {
            // Then that of the partition's folder, before those in it.
            at(Place::Root, sync_folder(&self.rt, self.root.path()))?;
            self.rooted
                .insert(String::from_str(self.alloc, partition)?)?;
        }
        if !self.settled.contains(partition) {
            let folder = self.root.path_of(partition)?;
            // Also where the file was there before: the run that made it may have failed before its sync.
            at(Place::Partition, sync_folder(&self.rt, folder.as_str()))?;
            self.note_settled(partition);
        }
        Ok(())
    }

    /// Takes back that the names of a partition's files outlast a crash, before one of them is made or removed.
    pub fn unsettle(&mut self, partition: &str) {
        self.settled.remove(partition);
    }

    /// Makes the removals in a partition outlast a crash. It also syncs where nothing was removed, since the call that did may
    /// have failed before it came to this.
    pub fn settle_removals(&mut self, partition: &str) -> Result<(), Stop> {
        let folder = self.root.path_of(partition)?;
        // Behind the removals, which are in the folder's names.
        if at(Place::Partition, sync_if_there(&self.rt, folder.as_str()))? {
            self.note_settled(partition);
        }
        Ok(())
    }

    // Where there is no memory for it, the next call syncs the names once more.
    fn note_settled(&mut self, partition: &str) {
        if let Ok(name) = String::from_str(self.alloc, partition) {
            let _ = self.settled.insert(name);
        }
    }
}
