// What the calls of a device do to one open file.
use crate::file_device::stop::{Place, Stop};
use std::fs::OpenFile;
use std::io::{self, ErrorKind, Read, Seek, SeekFrom, Write};

// Cuts off what a failed write left past the blob's length, so that a later gap reads as zeros.
fn cut<F: OpenFile>(file: &F, len: u64) -> Result<(), Stop> {
    let found = file.metadata()?.len();
    if found < len {
        return Err(Stop::TooShort);
    }
    if found > len {
        // Now, while only this surplus is there: later bytes could not be told from it.
        file.set_len(len)?;
    }
    Ok(())
}

/// What a sync came to, told apart from other failures.
pub fn synced(done: io::Result<()>) -> Result<(), Stop> {
    match done {
        Ok(()) => Ok(()),
        Err(e) => Err(Stop::Sync(Place::Blob, e)),
    }
}

/// Refuses a file that is shorter than the blob.
pub fn check_len<F: OpenFile>(file: &F, len: u64) -> Result<(), Stop> {
    if file.metadata()?.len() < len {
        return Err(Stop::TooShort);
    }
    Ok(())
}

/// Settles the file, at the blob's length where it is known, and answers its length.
pub fn settle<F: OpenFile>(file: &F, len: Option<u64>) -> Result<u64, Stop> {
    if let Some(len) = len {
        cut(file, len)?;
    }
    // The file settles at its own length: the cut goes before, and the length is looked at behind.
    synced(file.sync_all())?;
    Ok(file.metadata()?.len())
}

/// Reads a part of a blob. The file that ends before it is shorter than the blob.
pub fn read<F: Read + Seek>(file: &mut F, offset: u64, buf: &mut [u8]) -> Result<(), Stop> {
    file.seek(SeekFrom::Start(offset))?;
    match file.read_exact(buf) {
        Ok(()) => Ok(()),
        Err(e) if e.kind() == ErrorKind::UnexpectedEof => Err(Stop::TooShort),
        Err(e) => Err(Stop::from(e)),
    }
}

/// Writes into a blob of this length.
pub fn write<F: OpenFile + Write + Seek>(
    file: &mut F,
    len: u64,
    offset: u64,
    bytes: &[u8],
) -> Result<(), Stop> {
    // What an earlier write left is cut now, before the write can join it to the blob.
    cut(file, len)?;
    // A write of no bytes makes its gap too.
    if len < offset {
        // The gap before the bytes: what is read of it is zeros from now on.
        file.set_len(offset)?;
    }
    file.seek(SeekFrom::Start(offset))?;
    // The bytes come last, so that a gap before them is zeros whatever fails.
    file.write_all(bytes)?;
    Ok(())
}

/// Gives a blob of the length `old` the length `new`.
pub fn resize<F: OpenFile>(file: &F, old: u64, new: u64) -> Result<(), Stop> {
    // New bytes are zeros, so what an earlier write left is cut first.
    cut(file, old)?;
    // Only now: longer by zeros, or shorter.
    file.set_len(new)?;
    Ok(())
}
