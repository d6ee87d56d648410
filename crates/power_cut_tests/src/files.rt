// The files of a disk in memory, for code that is generic over the file system.
ghost use Rattle.std.specs.Io.{ReadsAtMost};

use crate::disk::{Answer, Disk, Node, refused};
use crate::left::{Left, blobs_below};
use crate::plan::Plan;
use crate::stop::Stop;
use blob_device::CrashChoice;
use std::alloc::Allocator;
use std::cell::{RefCell, RefMut};
use std::fs::{Metadata, OpenFile, OpenOptions};
use std::io;
use std::io::{ErrorKind, Read, Seek, SeekFrom, Write};
use std::rc::Rc;
use std::rt::Files;

/// A way to the files of a disk.
#[derive(Clone, Drop)]
pub struct DiskFiles {
    // Shared with each file that is opened on it.
    disk: Rc<RefCell<Disk>>,
}

/// An open file or folder.
pub struct Opened {
    // The disk on which it is open.
    disk: Rc<RefCell<Disk>>,
    // The number of the file or folder.
    node: usize,
    // Where the next read or write begins, in bytes.
    at: u64,
}

/// The names in a folder that are not read so far, each ended by a NUL.
#[derive(Drop)]
pub struct NamesLeft {
    // The disk: a read of a name is a call of it.
    disk: Rc<RefCell<Disk>>,
    // The next one that is read stands last.
    names: Vec<String>,
}

impl DiskFiles {
    /// The files of this disk.
    pub fn new(disk: Disk) -> Result<DiskFiles, Stop> {
        let alloc = disk.alloc;
        Ok(DiskFiles {
            disk: Rc::new(alloc, RefCell::new(disk))?,
        })
    }

    /// How many calls there were.
    pub fn calls(&self) -> u64 {
        match self.disk.try_borrow() {
            Ok(disk) => disk.calls,
            Err(_) => 0,
        }
    }

    /// Whether the call that fails alone was one that changes names or a length.
    pub fn has_failed_to_change(&self) -> bool {
        match self.disk.try_borrow() {
            Ok(disk) => disk.has_failed_to_change,
            Err(_) => false,
        }
    }

    /// No call fails from here on.
    pub fn go_on(&self) {
        if let Ok(mut disk) = self.disk.try_borrow_mut() {
            disk.plan = Plan::Whole;
        }
    }

    /// Whether no later sync writes what a file had not synced when it was closed.
    pub fn closing_forgets(&self) -> bool {
        match self.disk.try_borrow() {
            Ok(disk) => disk.closing_forgets,
            Err(_) => false,
        }
    }

    /// The disk when the power was gone and is back.
    pub fn after_power(&self, choice: CrashChoice) -> Result<Disk, Stop> {
        match self.disk.try_borrow() {
            Ok(disk) => Ok(disk.after_power(choice)?),
            Err(_) => Err(Stop::Said("the disk is in use")),
        }
    }

    /// The blobs below a folder, as they read.
    pub fn blobs_below(&self, root: &str) -> Result<Vec<Left>, Stop> {
        match self.disk.try_borrow() {
            Ok(disk) => blobs_below(&disk, root),
            Err(_) => Err(Stop::Said("the disk is in use")),
        }
    }
}

// The disk, for one call.
fn taken(disk: &RefCell<Disk>) -> io::Result<RefMut<'_, Disk>> {
    match disk.try_borrow_mut() {
        Ok(disk) => Ok(disk),
        Err(_) => refused(ErrorKind::ResourceBusy),
    }
}

impl Files for DiskFiles {
    type File = Opened;

    type Dir = NamesLeft;

    fn open_file(&self, how: &OpenOptions, path: &str) -> io::Result<Opened> {
        how.check()?;
        let mut disk = taken(&self.disk)?;
        let answer = if makes(how) {
            disk.begin_change()?
        } else {
            disk.begin()?;
            Answer::Done
        };
        let node = open_or_make(&mut disk, how, path)?;
        answer.give()?;
        disk.open(node)?;
        Ok(Opened {
            disk: self.disk.clone()?,
            node,
            at: 0,
        })
    }

    fn open_dir(&self, path: &str) -> io::Result<NamesLeft> {
        let mut disk = taken(&self.disk)?;
        disk.begin()?;
        let at = disk.find(path)?;
        let Some(Node::Folder(folder)) = disk.node(at) else {
            return refused(ErrorKind::NotADirectory);
        };
        let mut names = Vec::new(disk.alloc);
        for named in folder.names.iter().rev() {
            names.push(named.name.clone()?)?;
        }
        Ok(NamesLeft {
            disk: self.disk.clone()?,
            names,
        })
    }

    fn metadata(&self, path: &str) -> io::Result<Metadata> {
        let mut disk = taken(&self.disk)?;
        disk.begin()?;
        let at = disk.find(path)?;
        Ok(metadata_of(&disk, at))
    }

    fn symlink_metadata(&self, path: &str) -> io::Result<Metadata> {
        self.metadata(path)
    }

    fn copy(&self, _from: &str, _to: &str) -> io::Result<u64> {
        refused(ErrorKind::Unsupported)
    }

    fn rename(&self, _from: &str, _to: &str) -> io::Result<()> {
        refused(ErrorKind::Unsupported)
    }

    fn remove_file(&self, path: &str) -> io::Result<()> {
        let mut disk = taken(&self.disk)?;
        let answer = disk.begin_change()?;
        disk.remove(path)?;
        answer.give()
    }

    fn create_dir(&self, path: &str) -> io::Result<()> {
        let mut disk = taken(&self.disk)?;
        let answer = disk.begin_change()?;
        disk.make(path, true)?;
        answer.give()
    }

    fn remove_dir(&self, _path: &str) -> io::Result<()> {
        refused(ErrorKind::Unsupported)
    }

    fn remove_dir_all<B: Allocator>(&self, _alloc: B, _path: &str) -> io::Result<()> {
        refused(ErrorKind::Unsupported)
    }
}

// Whether a file is made that is not there.
fn makes(how: &OpenOptions) -> bool {
    how.asks_create() || how.asks_create_new()
}

// Opens what stands at a path, or makes a file there.
fn open_or_make(disk: &mut Disk, how: &OpenOptions, path: &str) -> io::Result<usize> {
    let writes = how.asks_write() || how.asks_append();
    match disk.find(path) {
        Ok(_) if how.asks_create_new() => refused(ErrorKind::AlreadyExists),
        Ok(at) if writes && disk.is_folder(at) => refused(ErrorKind::IsADirectory),
        Ok(at) => {
            if how.asks_truncate() {
                disk.resize(at, 0)?;
            }
            Ok(at)
        }
        Err(e) if e.kind() == ErrorKind::NotFound && makes(how) => disk.make(path, false),
        Err(e) => Err(e),
    }
}

fn metadata_of(disk: &Disk, at: usize) -> Metadata {
    if disk.is_folder(at) {
        return Metadata::of_dir();
    }
    Metadata::of_file(disk.bytes(at).len() as u64)
}

impl Read for NamesLeft {
    fn read(&mut self, buf: &mut [u8]) -> io::Result<usize> {
        taken(&self.disk)?.begin()?;
        let Some(name) = self.names.pop() else {
            return Ok(0);
        };
        let bytes = name.as_bytes();
        let len = bytes.len();
        if buf.len() <= len {
            return Err(io::Error::from(ErrorKind::InvalidInput));
        }
        for (place, byte) in buf.iter_mut().zip(bytes) {
            *place = *byte;
        }
        buf[len] = 0;
        Ok(len + 1)
    }
}

impl Opened {
    // Reads from an offset on.
    fn read_from(&self, offset: u64, buf: &mut [u8]) -> io::Result<usize>
        ensures { ReadsAtMost result buf.new }
    {
        let mut disk = taken(&self.disk)?;
        disk.begin()?;
        let bytes = disk.bytes(self.node).get(offset as usize..).unwrap_or(&[]);
        let count = bytes.len().min(buf.len());
        for (place, byte) in buf.iter_mut().zip(bytes) {
            *place = *byte;
        }
        Ok(count)
    }

    // Writes from an offset on. Where it fails, half of the bytes are written.
    fn write_from(&self, offset: u64, bytes: &[u8]) -> io::Result<()> {
        let mut disk = taken(&self.disk)?;
        let nth = disk.calls;
        match disk.begin() {
            Ok(()) => disk.write(self.node, offset, bytes),
            Err(e) => {
                let half = bytes.get(..bytes.len() / 2).unwrap_or(&[]);
                if disk.plan == Plan::Fails(nth) || disk.plan == Plan::Stops(nth) {
                    disk.write(self.node, offset, half)?;
                }
                Err(e)
            }
        }
    }
}

impl Read for Opened {
    fn read(&mut self, buf: &mut [u8]) -> io::Result<usize> {
        let count = self.read_from(self.at, buf)?;
        self.at = self.at.saturating_add(count as u64);
        Ok(count)
    }
}

impl Write for Opened {
    fn write(&mut self, buf: &[u8]) -> io::Result<usize> {
        self.write_from(self.at, buf)?;
        self.at = self.at.saturating_add(buf.len() as u64);
        Ok(buf.len())
    }

    fn flush(&mut self) -> io::Result<()> {
        Ok(())
    }
}

impl Seek for Opened {
    fn seek(&mut self, to: SeekFrom) -> io::Result<u64> {
        let mut disk = taken(&self.disk)?;
        disk.begin()?;
        let len = disk.bytes(self.node).len() as u64;
        let place = match to {
            SeekFrom::Start(at) => Some(at),
            SeekFrom::End(by) => len.checked_add_signed(by),
            SeekFrom::Current(by) => self.at.checked_add_signed(by),
        };
        match place {
            Some(place) => {
                self.at = place;
                Ok(place)
            }
            None => refused(ErrorKind::InvalidInput),
        }
    }
}

impl OpenFile for Opened {
    fn metadata(&self) -> io::Result<Metadata> {
        let mut disk = taken(&self.disk)?;
        disk.begin()?;
        Ok(metadata_of(&disk, self.node))
    }

    fn set_len(&self, size: u64) -> io::Result<()> {
        let mut disk = taken(&self.disk)?;
        let answer = disk.begin_change()?;
        disk.resize(self.node, size)?;
        answer.give()
    }

    fn sync_all(&self) -> io::Result<()> {
        let mut disk = taken(&self.disk)?;
        match disk.begin() {
            Ok(()) => disk.sync(self.node),
            Err(e) => {
                if matches!(disk.plan, Plan::Fails(_)) {
                    disk.forget(self.node);
                }
                Err(e)
            }
        }
    }

    fn sync_data(&self) -> io::Result<()> {
        self.sync_all()
    }
}

impl Drop for Opened {
    fn drop(self) {
        let Opened { disk, node, at: _ } = self;
        if let Ok(mut disk) = disk.try_borrow_mut() {
            disk.close(node);
        }
    }
}
