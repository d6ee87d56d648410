// The files of the system, with a lock, and read and written at a place in one call.
use crate::file_device::names::LOCK_NAME;
use std::alloc::{AllocError, Allocator};
use std::fs::{File, Metadata, OpenFile, OpenOptions};
use std::io::{self, ErrorKind, Read, Seek, SeekFrom, Write};
use std::os::unix::fs::FileExt;
use std::rt::Files;

/// The files of a runtime over std's `File`, for a device that has its folder alone.
///
/// A file named `LOCK` is locked when it is opened. Where another program has it open so, the answer is
/// [`WouldBlock`](ErrorKind::WouldBlock) at once. The system lets the lock go when the file is closed,
/// however the program ends. A seek only notes the place, so that a read or a write is one call of the
/// system.
#[derive(Drop)]
pub struct HostFiles<R> {
    /// The runtime that has the files.
    rt: R,
}

impl<R: Files<File = File> + Clone + Drop> HostFiles<R> {
    /// The files of this runtime.
    pub fn new(rt: &R) -> Result<HostFiles<R>, AllocError> {
        Ok(HostFiles { rt: rt.clone()? })
    }
}

impl<R: Clone> Clone for HostFiles<R> {
    fn clone(&self) -> Result<Self, AllocError> {
        Ok(HostFiles {
            rt: self.rt.clone()?,
        })
    }
}

// Whether the path's last name is that of the lock.
fn is_lock(path: &str) -> bool {
    match path.rsplit_once('/') {
        Some((_, name)) => name == LOCK_NAME,
        None => path == LOCK_NAME,
    }
}

impl<R: Files<File = File> + Clone + Drop> Files for HostFiles<R> {
    type File = PlacedFile;

    type Dir = R::Dir;

    fn open_file(&self, how: &OpenOptions, path: &str) -> io::Result<PlacedFile> {
        let file = self.rt.open_file(how, path)?;
        if is_lock(path) {
            file.try_lock()?;
        }
        Ok(PlacedFile { file, at: 0 })
    }

    fn open_dir(&self, path: &str) -> io::Result<R::Dir> {
        self.rt.open_dir(path)
    }

    fn metadata(&self, path: &str) -> io::Result<Metadata> {
        self.rt.metadata(path)
    }

    fn symlink_metadata(&self, path: &str) -> io::Result<Metadata> {
        self.rt.symlink_metadata(path)
    }

    fn copy(&self, from: &str, to: &str) -> io::Result<u64> {
        self.rt.copy(from, to)
    }

    fn rename(&self, from: &str, to: &str) -> io::Result<()> {
        self.rt.rename(from, to)
    }

    fn remove_file(&self, path: &str) -> io::Result<()> {
        self.rt.remove_file(path)
    }

    fn create_dir(&self, path: &str) -> io::Result<()> {
        self.rt.create_dir(path)
    }

    fn remove_dir(&self, path: &str) -> io::Result<()> {
        self.rt.remove_dir(path)
    }

    fn remove_dir_all<B: Allocator>(&self, alloc: B, path: &str) -> io::Result<()> {
        self.rt.remove_dir_all(alloc, path)
    }
}

/// An open file with the place of its next read or write.
#[derive(Drop)]
pub struct PlacedFile {
    /// The open file.
    file: File,
    /// Where the next read or write begins, in bytes. The system's own place is not used.
    at: u64,
}

impl OpenFile for PlacedFile {
    fn metadata(&self) -> io::Result<Metadata> {
        self.file.metadata()
    }

    fn set_len(&self, size: u64) -> io::Result<()> {
        self.file.set_len(size)
    }

    fn sync_all(&self) -> io::Result<()> {
        self.file.sync_all()
    }

    fn sync_data(&self) -> io::Result<()> {
        self.file.sync_data()
    }
}

impl Read for PlacedFile {
    fn read(&mut self, buf: &mut [u8]) -> io::Result<usize> {
        let count = self.file.read_at(buf, self.at)?;
        self.at = self.at.saturating_add(count as u64);
        Ok(count)
    }
}

impl Write for PlacedFile {
    fn write(&mut self, buf: &[u8]) -> io::Result<usize> {
        // At the noted place in one call, so that no seek of the system goes before.
        let count = self.file.write_at(buf, self.at)?;
        self.at = self.at.saturating_add(count as u64);
        Ok(count)
    }

    fn flush(&mut self) -> io::Result<()> {
        Ok(())
    }
}

impl Seek for PlacedFile {
    fn seek(&mut self, to: SeekFrom) -> io::Result<u64> {
        let at = match to {
            SeekFrom::Start(at) => Some(at),
            SeekFrom::Current(by) => self.at.checked_add_signed(by),
            SeekFrom::End(by) => self.file.metadata()?.len().checked_add_signed(by),
        };
        match at {
            Some(at) => {
                self.at = at;
                Ok(at)
            }
            None => Err(io::Error::from(ErrorKind::InvalidInput)),
        }
    }
}
