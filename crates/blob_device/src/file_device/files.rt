// The files of the blobs below a root folder.
ghost use Rattle.std.specs.Prelude.{◌≡◌, true, false, IsErrAnd, OnOk};
ghost use Rattle.blob_device.specs.FolderNames.{is_folder_name};
ghost use Rattle.blob_device.specs.Stops.{is_fault};

use crate::file_device::file::{read, resize, settle, write};
use crate::file_device::folders::Folders;
use crate::file_device::names::check_folder_name;
use crate::file_device::open_files::{Kept, OpenFiles};
use crate::file_device::places::Places;
use crate::file_device::stop::{Place, Stop};
use std::alloc::{AllocError, Global};
use std::fs;
use std::io::ErrorKind;
use std::rt::Files;

/// An opened blob.
#[derive(Clone, Copy)]
pub struct Blob<'a> {
    /// The partition that it is in.
    pub partition: &'a str,
    /// Its name.
    pub name: &'a [u8],
    /// Its length in bytes.
    pub len: u64,
}

/// The files of the blobs below a root folder.
#[derive(Drop)]
pub struct BlobFiles<R: Files + Clone + Drop> {
    /// The runtime that has the files.
    rt: R,
    /// Where memory for paths comes from.
    alloc: Global,
    /// The path of each blob that was named, built once.
    places: Places,
    /// The root and the partitions' folders: the lock, and whose names have settled.
    folders: Folders<R>,
    /// The open files, by the numbers of their places.
    open: OpenFiles<R>,
}

impl<R: Files + Clone + Drop> BlobFiles<R> {
    /// The files below this folder, or where its name is empty below the working folder. It touches none. With `alone` the
    /// first call takes the folder's lock.
    pub fn new(rt: &R, alloc: Global, root: &str, alone: bool) -> Result<Self, AllocError> {
        let root = if root.is_empty() { "." } else { root };
        Ok(BlobFiles {
            rt: rt.clone()?,
            alloc,
            places: Places::new(alloc, root)?,
            folders: Folders::new(rt, alloc, root, alone)?,
            open: OpenFiles::new(rt, alloc)?,
        })
    }

    /// The names of the blobs in a partition, ascending.
    pub fn scan(&mut self, alloc: Global, partition: &str) -> Result<Vec<Vec<u8>>, Stop>
        ensures folder { OnOk result (is_folder_name partition.now ≡ true) }
        ensures bad { is_folder_name partition.now ≡ false → IsErrAnd result (λ s. is_fault s ≡ true) }
    {
        check_folder_name(partition)?;
        self.folders.enter()?;
        let mut names = self.folders.names(alloc, partition)?;
        names.sort()?;
        Ok(names)
    }

    /// Makes the file of a blob where it is absent, settles it, and answers its length. `len` is the blob's length, where
    /// it is opened.
    pub fn open(&mut self, partition: &str, name: &[u8], len: Option<u64>) -> Result<u64, Stop>
        ensures folder { OnOk result (is_folder_name partition.now ≡ true) }
        ensures bad { is_folder_name partition.now ≡ false → IsErrAnd result (λ s. is_fault s ≡ true) }
    {
        check_folder_name(partition)?;
        self.folders.enter()?;
        self.open_settled(partition, name, len)
    }

    fn open_settled(
        &mut self,
        partition: &str,
        name: &[u8],
        len: Option<u64>,
    ) -> Result<u64, Stop> {
        let mut kept = self.find(partition, name, len.is_some())?;
        let settled = self.settle(partition, &mut kept, len);
        self.keep(partition, name, kept)?;
        settled
    }

    // Opens a file, which is made where the blob is not opened and has none.
    fn find(
        &mut self,
        partition: &str,
        name: &[u8],
        is_opened: bool,
    ) -> Result<Kept<R::File>, Stop> {
        let place = self.places.get(partition, name)?;
        match self.open.find(place) {
            Err(Stop::System(_, e)) if e.kind() == ErrorKind::NotFound && !is_opened => {
                // Taken back before the file is made, since its making may fail in between.
                self.folders.unsettle(partition);
                self.folders.make(partition)?;
                // Made only now, with its folder there.
                self.open.open(place, true)
            }
            found => found,
        }
    }

    // Settles an open file and its name.
    fn settle(
        &mut self,
        partition: &str,
        kept: &mut Kept<R::File>,
        len: Option<u64>,
    ) -> Result<u64, Stop> {
        // The names too, not the bytes alone: a file whose name is lost is lost.
        self.folders.settle(partition)?;
        let len = settle(&kept.file, len)?;
        kept.is_written = false;
        Ok(len)
    }

    fn keep(&mut self, partition: &str, name: &[u8], kept: Kept<R::File>) -> Result<(), Stop> {
        let place = self.places.get(partition, name)?;
        self.open.keep(place.number, kept)
    }

    /// Reads a part of a blob.
    pub fn read(&mut self, blob: Blob<'_>, offset: u64, buf: &mut [u8]) -> Result<(), Stop> {
        let place = self.places.get(blob.partition, blob.name)?;
        let mut kept = self.open.take(place, blob.len)?;
        let done = read(&mut kept.file, offset, buf);
        self.open.keep(place.number, kept)?;
        done
    }

    /// Writes into a blob.
    pub fn write(&mut self, blob: Blob<'_>, offset: u64, bytes: &[u8]) -> Result<(), Stop> {
        let place = self.places.get(blob.partition, blob.name)?;
        let mut kept = self.open.take(place, blob.len)?;
        // Marked before, since a write that fails may have written.
        kept.is_written = true;
        let done = write(&mut kept.file, blob.len, offset, bytes);
        self.open.keep(place.number, kept)?;
        done
    }

    /// Gives a blob this length.
    pub fn resize(&mut self, blob: Blob<'_>, len: u64) -> Result<(), Stop> {
        let place = self.places.get(blob.partition, blob.name)?;
        let mut kept = self.open.take(place, blob.len)?;
        // Marked before, since a cut that fails may have cut.
        kept.is_written = true;
        let done = resize(&kept.file, blob.len, len);
        self.open.keep(place.number, kept)?;
        done
    }

    /// Settles a blob.
    pub fn sync(&mut self, blob: Blob<'_>) -> Result<(), Stop> {
        let place = self.places.get(blob.partition, blob.name)?;
        let mut kept = self.open.take(place, blob.len)?;
        // Before it counts as not written: one that is written is synced where it is closed.
        let settled = settle(&kept.file, Some(blob.len));
        kept.is_written = kept.is_written && settled.is_err();
        self.open.keep(place.number, kept)?;
        settled?;
        Ok(())
    }

    /// Takes the file of a blob away. An absent one is Ok. The removal outlasts a crash only after
    /// [`settle_removals`](BlobFiles::settle_removals).
    pub fn remove(&mut self, partition: &str, name: &[u8]) -> Result<(), Stop>
        ensures folder { OnOk result (is_folder_name partition.now ≡ true) }
        ensures bad { is_folder_name partition.now ≡ false → IsErrAnd result (λ s. is_fault s ≡ true) }
    {
        check_folder_name(partition)?;
        self.folders.enter()?;
        let place = self.places.get(partition, name)?;
        // Taken back before the removal, since the sync behind it may fail.
        self.folders.unsettle(partition);
        // The file goes now, and its name with it: no call before this one has touched either.
        match fs::remove_file(&self.rt, place.path.as_str()) {
            Ok(()) => {}
            Err(e) if e.kind() == ErrorKind::NotFound => {}
            Err(e) => {
                // Closed, since the name may be gone all the same: no later call goes on with a file that has none.
                self.open.close(place.number)?;
                return Err(Stop::from(e));
            }
        }
        // Closed behind the removal: a file that stays keeps its writes.
        self.open.leave(place.number);
        self.places.forget(partition, name);
        Ok(())
    }

    /// Makes the removals in a partition outlast a crash.
    pub fn settle_removals(&mut self, partition: &str) -> Result<(), Stop> {
        self.folders.settle_removals(partition)
    }

    /// The path of what a call of this blob stopped at, for a message.
    pub fn path_at(
        &self,
        place: Place,
        partition: &str,
        name: &[u8],
    ) -> Result<String, AllocError> {
        let root = self.folders.root();
        match place {
            Place::Blob => self.places.path(partition, name),
            Place::File(number) => match self.places.path_of_number(number) {
                Some(path) => String::from_str(self.alloc, path),
                None => String::from_str(self.alloc, root.path()),
            },
            Place::Partition => root.path_of(partition),
            Place::Root => String::from_str(self.alloc, root.path()),
            Place::Lock => root.lock_path(),
        }
    }
}
