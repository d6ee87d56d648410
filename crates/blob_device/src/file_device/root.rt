// The root folder of a device: made where it is absent, and its name settled.
use crate::file_device::file::synced;
use crate::file_device::names::{LOCK_NAME, joined};
use crate::file_device::stop::Stop;
use std::alloc::{AllocError, Global};
use std::fs::{self, OpenFile};
use std::io::ErrorKind;
use std::rt::Files;

/// The root folder of a device.
#[derive(Drop)]
pub struct Root {
    /// Where memory for paths comes from.
    alloc: Global,
    /// Its path.
    path: String,
    /// How long the path is of the highest folder that this device may have made: the root, or one above it.
    own_from: Option<usize>,
    /// Whether its name has settled, and that of each folder above it that this device may have made.
    is_settled: bool,
}

// The folder above this one, as its path spells it.
fn above(folder: &str) -> &str {
    match folder.rsplit_once('/') {
        Some((above, _)) if above.is_empty() => "/",
        Some((above, _)) => above,
        None => ".",
    }
}

// Makes the name of a folder outlast a crash. Where the folder above it may not be read, that is left to who made this one,
// unless it is `own`.
fn settle_name<R: Files>(rt: &R, alloc: Global, folder: &str, own: bool) -> Result<(), Stop> {
    // By the folder's own way up, which is right however its path is spelled.
    let above = joined(alloc, folder, "..")?;
    match fs::open(rt, above.as_str()) {
        // The name stands in the folder above, so that one is synced.
        Ok(above) => synced(above.sync_all()),
        Err(e) if e.kind() == ErrorKind::PermissionDenied && !own => Ok(()),
        Err(e) => Err(Stop::from(e)),
    }
}

impl Root {
    /// The root at this path. It touches no folder.
    pub fn new(alloc: Global, path: &str) -> Result<Root, AllocError> {
        Ok(Root {
            alloc,
            path: String::from_str(alloc, path)?,
            own_from: None,
            is_settled: false,
        })
    }

    /// Its path.
    pub fn path(&self) -> &str {
        self.path.as_str()
    }

    /// The path of the file that a device which has the root alone keeps locked.
    pub fn lock_path(&self) -> Result<String, AllocError> {
        self.path_of(LOCK_NAME)
    }

    /// The path of this name in the root.
    pub fn path_of(&self, name: &str) -> Result<String, AllocError> {
        joined(self.alloc, self.path.as_str(), name)
    }

    // The folder whose path ends here, if one does.
    fn folder(&self, end: usize) -> Option<&str> {
        let (folder, rest) = self.path.as_str().split_at_checked(end)?;
        if rest.is_empty() || rest.starts_with('/') {
            Some(folder)
        } else {
            None
        }
    }

    // Whether the folder whose path ends here may be this device's own.
    fn is_own(&self, end: usize) -> bool {
        match self.own_from {
            Some(from) => from <= end,
            None => false,
        }
    }

    // Whether a folder is to be made whose path ends here.
    fn is_absent<R: Files>(&self, rt: &R, end: usize) -> bool {
        match self.folder(end) {
            Some(folder) => fs::metadata(rt, folder).is_err(),
            None => false,
        }
    }

    // Settles the folder in which one is made, where that is not this device's own.
    fn settle_above<R: Files>(&self, rt: &R, end: usize) -> Result<(), Stop> {
        match self.folder(end) {
            Some(folder) if self.own_from.is_none() => {
                // Before the first is made: who made the folder above may have ended before its sync.
                settle_name(rt, self.alloc, above(folder), false)
            }
            _ => Ok(()),
        }
    }

    // Makes the folder whose path ends here.
    fn make_at<R: Files>(&self, rt: &R, end: usize) -> Result<(), Stop> {
        match self.folder(end) {
            Some(folder) => make_folder(rt, folder),
            None => Ok(()),
        }
    }

    // Settles the name of the folder whose path ends here, where it may be this device's own.
    fn settle_own<R: Files>(&self, rt: &R, end: usize) -> Result<(), Stop> {
        match self.folder(end) {
            Some(folder) if self.is_own(end) => {
                // Before another is made in it, so that whoever finds that one finds all above it settled.
                settle_name(rt, self.alloc, folder, true)
            }
            _ => Ok(()),
        }
    }

    // Makes the folder whose path ends here, if it is absent.
    fn make_to<R: Files>(&mut self, rt: &R, end: usize) -> Result<(), Stop> {
        if self.is_absent(rt, end) {
            self.settle_above(rt, end)?;
            // Noted before it is made, since a making that fails may have made it.
            self.own_from = Some(self.own_from.unwrap_or(end).min(end));
            self.is_settled = false;
            self.make_at(rt, end)?;
        }
        self.settle_own(rt, end)
    }

    /// Makes the root and the folders above it, where they are absent, the highest first. The name of each that this device may
    /// have made is settled before another is made in it.
    pub fn make<R: Files>(&mut self, rt: &R) -> Result<(), Stop> {
        let len = self.path.len();
        for end in 1..len {
            self.make_to(rt, end)?;
        }
        self.make_to(rt, len)?;
        // All that may be this device's own have settled by now.
        self.is_settled |= self.own_from.is_some();
        Ok(())
    }

    /// Makes the name of the root outlast a crash, and those of the folders above it that this device may have made.
    pub fn settle<R: Files>(&mut self, rt: &R) -> Result<(), Stop> {
        if self.is_settled {
            return Ok(());
        }
        if self.own_from.is_some() {
            // Again, since the call that made them ended before it came to all their names.
            self.make(rt)?;
        } else {
            // Also of a root that was there: who made it may have ended before its sync.
            settle_name(rt, self.alloc, self.path.as_str(), false)?;
        }
        self.is_settled = true;
        Ok(())
    }
}

/// Makes a folder, which may be there by now.
pub fn make_folder<R: Files>(rt: &R, folder: &str) -> Result<(), Stop> {
    match fs::create_dir(rt, folder) {
        Ok(()) => Ok(()),
        Err(e) if e.kind() == ErrorKind::AlreadyExists => Ok(()),
        Err(e) => Err(Stop::from(e)),
    }
}
