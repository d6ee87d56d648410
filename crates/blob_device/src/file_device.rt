// A device over a folder of a file system: the edge at which the proofs end.
//
// # Format
//
//     ROOT/
//       LOCK                    empty, and locked by a device that has the folder alone
//       keys/                   a partition: its name has 1 to 64 of a to z, 0 to 9, `_` and `-`
//         0000000000000004      a blob: the file is named by the hexadecimal of the blob's name
//       meta/
//         6c656674              the blob `left`
//
// A file has the blob's bytes. Behind a write that failed it may be longer than the blob. The surplus is cut
// before the next call that changes or settles the blob.
//
// # Sync
//
// What is synced before a call answers Ok:
//
//     open_blob    the folder above the root, once; the root, where the partition is new to the device; the
//                  partition's folder, where its names may not have settled; then the file
//     sync         the file, at the blob's length
//     remove       the partition's folder, behind the removal
//     scan         the partition's folder, where its names may not have settled; only then it is listed
//
// Each is `sync_all`. A folder that is made for the root, or above it, is synced into the one above before
// another is made in it. Reads, writes and resizes sync nothing, but for a written file that is closed to make
// room for another.
//
// # Crashes
//
// The device tells nothing of its disk (`Tells` is empty): that what was synced lasts is trusted. After a
// sync that failed no call answers again that a blob is settled. The system may have dropped what it was to
// write.
//
// # Cost
//
// At most 256 files are open, those that were used last. A path is built once a blob. With `HostFiles` a read
// of an open file is one call of the system. A write and a resize look at the file's length first. `new` and
// `alone` touch no file.
ghost use Rattle.std.specs.Prelude.{◌≡◌, ◌+◌, ◌<◌, ◌^◌, ◌⊎◌, ◌≤◌, ◌||◌, max, true, false, None, Err, IsSome, IsSomeAnd, IsErr, IsErrAnd, OnOk, OnErr, IfOk, IfSome, length};
ghost use Rattle.std.specs.Result.{IsOkUnless, result_ok};
ghost use Rattle.blob_device.specs.Counts.{Counted, Noted};
ghost use Rattle.blob_device.specs.FolderNames.{is_folder_name};
ghost use Rattle.blob_device.specs.Opened.{entered, updated, left, with_len, one_more_read, PartlyGrown};
ghost use Rattle.blob_device.specs.Stops.{is_fault, has_failed_to_sync};

mod file;
mod files;
mod folders;
mod host_files;
mod names;
mod open_files;
mod opened;
mod places;
mod root;
mod stop;

use crate::{DevError, Device, Names};
use files::{Blob, BlobFiles};
pub use host_files::{HostFiles, PlacedFile};
use opened::OpenedBlobs;
use std::alloc::{AllocError, Global};
use std::fmt;
use std::rt::Files;
use stop::Stop;

/// A device over a folder of a file system.
///
/// A partition is a folder below the root and is made when needed; it stays when its last blob is removed. A
/// blob is the file whose name is the lower-case hexadecimal of the blob's name, and other files are passed
/// over. A partition's name has 1 to 64 of the characters a to z, 0 to 9, `_` and `-`; any other is a fault.
/// A blob's name has 1 to 127 bytes: the system refuses other files, which is a fault too.
///
/// `open_blob` and `sync` sync the file. The names in a partition's folder are synced when the device first
/// opens a blob there or lists them. They are synced again where it makes or removes a file. The name of a
/// partition's folder is synced when a blob is first opened there, and not when its names are listed.
///
/// The root, and folders above it, are made where they are absent. No `open_blob` answers Ok before the names
/// of all that this device may have made are synced, also where an earlier call made them and failed. The
/// name of a root that was there is synced once, since who made it may have ended before that. So is that of
/// the folder in which the first one is made. Where the folder above one that was there may not be read, its
/// name is left to who made it. Names further up are not looked at.
///
/// Of the open files, at most 256, none is closed with writes that are not synced, but where its blob is
/// removed or the device ends. After a sync that failed no call answers that a blob is settled
/// ([`has_lost`](FileDevice::has_lost)). A file's length is looked at when it is opened, before it is
/// changed, and when it settles. The device does not tell its disk: what the system does with the files is
/// outside the proofs.
///
/// A removal that the system answers by an error may have been carried out. The file is closed then, and the
/// next call looks for the blob's name again. Where that is gone, each call of the blob fails until a removal
/// answers Ok.
///
/// ```rust
/// let mut dev = FileDevice::alone(&HostFiles::new(rt)?, alloc, "archive")?;    // no file is touched yet
/// dev.open_blob("p", b"a")?;              // locks archive/LOCK, makes archive/p/61, and syncs it and its names
/// dev.write_at("p", b"a", 0, b"abc")?;    // the file has the bytes, and a power cut may take them
/// dev.sync("p", b"a")?;                   // abc lasts, as far as the system keeps what it has synced
/// ```
#[derive(Drop)]
pub struct FileDevice<R: Files + Clone + Drop> {
    /// Where memory for the list, paths and lines comes from.
    alloc: Global,
    /// The files below the root.
    files: BlobFiles<R>,
    /// The opened blobs, with length in bytes and reads, as the calls leave them (`file_opened`).
    opened: OpenedBlobs,
    /// How many calls ended, up to the end of a u64; each raises it (`Counted.calls`).
    calls: u64,
    /// How many of them failed but for want of memory, up to the end of a u64 (`Noted.faults`).
    faults: u64,
    /// Whether a sync has failed. It never goes back to false (`Noted.lost_stays`).
    has_lost: bool,
    /// What failed at the last fault, in one line for people. No contract speaks of it.
    last_failure: Option<String>,
}

impl<R: Files + Clone + Drop> FileDevice<R> {
    ghost use Rattle.blob_device.specs.FileMeaning.{file_time, file_faults, file_opened, file_lost};

    /// A device over this folder, with no blob opened. It touches no file. An empty root is the working folder.
    pub fn new(rt: &R, alloc: Global, root: &str) -> Result<FileDevice<R>, DevError>
        ensures memory { IsOkUnless result DevError.Mem }
        ensures none_opened { IfOk result (λ d. file_opened d ≡ (λ _. None)) }
        ensures none_made { IfOk result (λ d. (file_time d).calls ≡ 0) }
        ensures no_fault { IfOk result (λ d. file_faults d ≡ 0) }
        ensures none_lost { IfOk result (λ d. file_lost d ≡ false) }
    {
        Ok(FileDevice::over(alloc, BlobFiles::new(rt, alloc, root, false)?))
    }

    /// A device that has this folder alone, with no blob opened. It touches no file yet.
    ///
    /// Its first call makes the folder where it is absent, and opens the file `LOCK` in it. Where the runtime refuses that as
    /// [`WouldBlock`](std::io::ErrorKind::WouldBlock), another program has the folder, and the call is a fault that touches
    /// nothing. The file stays open as long as the device does. [`HostFiles`](crate::HostFiles) lock it.
    pub fn alone(rt: &R, alloc: Global, root: &str) -> Result<FileDevice<R>, DevError>
        ensures memory { IsOkUnless result DevError.Mem }
        ensures none_opened { IfOk result (λ d. file_opened d ≡ (λ _. None)) }
        ensures none_made { IfOk result (λ d. (file_time d).calls ≡ 0) }
        ensures no_fault { IfOk result (λ d. file_faults d ≡ 0) }
        ensures none_lost { IfOk result (λ d. file_lost d ≡ false) }
    {
        Ok(FileDevice::over(alloc, BlobFiles::new(rt, alloc, root, true)?))
    }

    fn over(alloc: Global, files: BlobFiles<R>) -> FileDevice<R>
        ensures none_opened { file_opened result ≡ (λ _. None) }
        ensures none_made { (file_time result).calls ≡ 0 }
        ensures no_fault { file_faults result ≡ 0 }
        ensures none_lost { file_lost result ≡ false }
    {
        FileDevice {
            alloc,
            files,
            opened: OpenedBlobs::new(alloc),
            calls: 0,
            faults: 0,
            has_lost: false,
            last_failure: None,
        }
    }

    /// How often a call failed, up to the end of a u64. Want of memory does not count.
    pub fn faults(&self) -> u64
        ensures { result ≡ file_faults self.now }
    {
        self.faults
    }

    /// Whether a sync has failed, so that what it was to write may be lost. It stays so, and no `open_blob`, `sync` or `remove`
    /// of this device answers Ok again: the system may have dropped the bytes, and a second sync would not tell.
    pub fn has_lost(&self) -> bool
        ensures { result ≡ file_lost self.now }
    {
        self.has_lost
    }

    /// What failed at the last fault, in one line: the call, the file or folder that failed in it, and the reason. None before
    /// the first fault, and where there was no memory for the line.
    pub fn last_failure(&self) -> Option<&str> {
        match &self.last_failure {
            Some(line) => Some(line.as_str()),
            None => None,
        }
    }

    fn try_scan(&mut self, alloc: Global, partition: &str) -> Result<Names, Stop>
        ensures opened { file_opened self.new ≡ file_opened self.old }
        ensures calls { (file_time self.new).calls ≡ (file_time self.old).calls }
        ensures faults { file_faults self.new ≡ file_faults self.old }
        ensures lost { file_lost self.new ≡ file_lost self.old }
        ensures folder { OnOk result (is_folder_name partition.now ≡ true) }
        ensures bad { is_folder_name partition.now ≡ false → IsErrAnd result (λ s. is_fault s ≡ true) }
    {
        Ok(Names::from_vec(self.files.scan(alloc, partition)?))
    }

    fn try_open(&mut self, partition: &str, name: &[u8]) -> Result<u64, Stop>
        ensures ok { IfOk result (λ n. file_opened self.new ≡ entered (file_opened self.old) (partition.now, name.now) n) }
        ensures err { OnErr result (file_opened self.new ≡ file_opened self.old) }
        ensures folder { OnOk result (is_folder_name partition.now ≡ true) }
        ensures bad { is_folder_name partition.now ≡ false → IsErrAnd result (λ s. is_fault s ≡ true) }
        ensures calls { (file_time self.new).calls ≡ (file_time self.old).calls }
        ensures faults { file_faults self.new ≡ file_faults self.old }
        ensures lost { file_lost self.new ≡ file_lost self.old }
        ensures lost_fails { file_lost self.old ≡ true → IsErrAnd result (λ s. is_fault s ≡ true) }
    {
        if self.has_lost {
            return Err(Stop::Lost);
        }
        let len = self.opened.get(partition, name).map(|entry| entry.len);
        // With the length of an opened blob, so that what a failed write left behind it does not settle.
        let len = self.files.open(partition, name, len)?;
        self.opened.enter(partition, name, len)?;
        Ok(len)
    }

    fn try_read(
        &mut self,
        partition: &str,
        name: &[u8],
        offset: u64,
        buf: &mut [u8],
    ) -> Result<(), Stop>
        requires { IsSome (file_opened self.old (partition.now, name.now)) }
        ensures opened { file_opened self.new ≡ updated (file_opened self.old) (partition.now, name.now) one_more_read }
        ensures calls { (file_time self.new).calls ≡ (file_time self.old).calls }
        ensures faults { file_faults self.new ≡ file_faults self.old }
        ensures lost { file_lost self.new ≡ file_lost self.old }
    {
        let blob = Blob {
            partition,
            name,
            len: self.len(partition, name),
        };
        self.opened.begin_read(partition, name);
        self.files.read(blob, offset, buf)
    }

    fn try_write(
        &mut self,
        partition: &str,
        name: &[u8],
        offset: u64,
        bytes: &[u8],
    ) -> Result<(), Stop>
        requires open { IsSome (file_opened self.old (partition.now, name.now)) }
        requires fits { offset + length bytes.now < 2 ^ 64 }
        ensures ok { OnOk result (file_opened self.new ≡ updated (file_opened self.old) (partition.now, name.now) (λ o. with_len (max o.len (offset + length bytes.now)) o)) }
        ensures err { OnErr result (file_opened self.new ≡ file_opened self.old) }
        ensures calls { (file_time self.new).calls ≡ (file_time self.old).calls }
        ensures faults { file_faults self.new ≡ file_faults self.old }
        ensures lost { file_lost self.new ≡ file_lost self.old }
    {
        let len = self.len(partition, name);
        let blob = Blob {
            partition,
            name,
            len,
        };
        // Before the list: where the write fails, the blob is as long as it was.
        self.files.write(blob, offset, bytes)?;
        let end = offset + bytes.len() as u64;
        self.opened.set_len(partition, name, len.max(end));
        Ok(())
    }

    fn try_resize(&mut self, partition: &str, name: &[u8], len: u64) -> Result<(), Stop>
        requires { IsSome (file_opened self.old (partition.now, name.now)) }
        ensures ok { OnOk result (file_opened self.new ≡ updated (file_opened self.old) (partition.now, name.now) (with_len len)) }
        ensures err { OnErr result (file_opened self.new ≡ file_opened self.old) }
        ensures calls { (file_time self.new).calls ≡ (file_time self.old).calls }
        ensures faults { file_faults self.new ≡ file_faults self.old }
        ensures lost { file_lost self.new ≡ file_lost self.old }
    {
        let blob = Blob {
            partition,
            name,
            len: self.len(partition, name),
        };
        // Before the list: where the file fails, the blob keeps its length.
        self.files.resize(blob, len)?;
        self.opened.set_len(partition, name, len);
        Ok(())
    }

    fn try_sync(&mut self, partition: &str, name: &[u8]) -> Result<(), Stop>
        requires { IsSome (file_opened self.old (partition.now, name.now)) }
        ensures opened { file_opened self.new ≡ file_opened self.old }
        ensures calls { (file_time self.new).calls ≡ (file_time self.old).calls }
        ensures faults { file_faults self.new ≡ file_faults self.old }
        ensures lost { file_lost self.new ≡ file_lost self.old }
        ensures lost_fails { file_lost self.old ≡ true → IsErrAnd result (λ s. is_fault s ≡ true) }
    {
        if self.has_lost {
            return Err(Stop::Lost);
        }
        let blob = Blob {
            partition,
            name,
            len: self.len(partition, name),
        };
        // At the length in the list, so that what a failed write left behind it does not settle.
        self.files.sync(blob)
    }

    // Once its file is gone, the blob is not opened, also where the removal could not be settled.
    fn try_remove(&mut self, partition: &str, name: &[u8]) -> Result<(), Stop>
        ensures ok { OnOk result (file_opened self.new ≡ left (file_opened self.old) (partition.now, name.now)) }
        ensures err { OnErr result ((file_opened self.new ≡ file_opened self.old) ⊎ (file_opened self.new ≡ left (file_opened self.old) (partition.now, name.now))) }
        ensures folder { OnOk result (is_folder_name partition.now ≡ true) }
        ensures bad { is_folder_name partition.now ≡ false → IsErrAnd result (λ s. is_fault s ≡ true) }
        ensures calls { (file_time self.new).calls ≡ (file_time self.old).calls }
        ensures faults { file_faults self.new ≡ file_faults self.old }
        ensures lost { file_lost self.new ≡ file_lost self.old }
        ensures lost_fails { file_lost self.old ≡ true → IsErrAnd result (λ s. is_fault s ≡ true) }
    {
        if self.has_lost {
            return Err(Stop::Lost);
        }
        // Before the list: where the file stays, the blob is still opened.
        self.files.remove(partition, name)?;
        self.opened.leave(partition, name);
        // Settled last: the file is gone by now, and the blob out of the list, whatever comes of this.
        self.files.settle_removals(partition)
    }

    // The length of an opened blob.
    fn len(&self, partition: &str, name: &[u8]) -> u64
        requires { IsSome (file_opened self.now (partition.now, name.now)) }
        ensures { IfSome (file_opened self.now (partition.now, name.now)) (λ o. o.len ≡ result) }
    {
        match self.opened.get(partition, name) {
            Some(entry) => entry.len,
            None => unreachable!(),
        }
    }

    fn failure(
        &self,
        call: Call,
        partition: &str,
        name: &[u8],
        stop: &Stop,
    ) -> Result<String, AllocError> {
        let path = self.files.path_at(stop.place(), partition, name)?;
        format!(in self.alloc; "cannot {call} {path:?}: {stop}")
    }

    // Counts a call that has ended. Where the files failed it, the fault counts too.
    fn end<T>(
        &mut self,
        call: Call,
        partition: &str,
        name: &[u8],
        done: Result<T, Stop>,
    ) -> Result<T, DevError>
        ensures counts { Counted result (file_faults self.old) (file_faults self.new) (file_time self.old).calls (file_time self.new).calls }
        ensures opened { file_opened self.new ≡ file_opened self.old }
        ensures value { result_ok result ≡ result_ok done }
        ensures refuses { IsErrAnd done (λ s. is_fault s ≡ true) → result ≡ Err DevError.Fault }
        ensures noted { Noted result (file_faults self.old) (file_faults self.new) (file_lost self.old) (file_lost self.new) }
        ensures lost { file_lost self.new ≡ (file_lost self.old || has_failed_to_sync done) }
    {
        self.calls = self.calls.saturating_add(1);
        match done {
            Ok(value) => Ok(value),
            Err(Stop::NoMemory) => Err(DevError::Mem),
            Err(stop) => {
                self.faults = self.faults.saturating_add(1);
                // A sync that failed may have dropped what it was to write: none is answered by an Ok again.
                self.has_lost |= matches!(&stop, Stop::Sync(_, _));
                self.last_failure = self.failure(call, partition, name, &stop).ok();
                Err(DevError::Fault)
            }
        }
    }
}

impl<R: Files + Clone + Drop> Device for FileDevice<R> {
    ghost use Rattle.blob_device.specs.FileMeaning.{file_time, file_faults, file_opened, file_lost};

    ghost Tells = { ⊥ };

    ghost time = { file_time };

    ghost faults = { file_faults };

    ghost opened = { file_opened };

    ghost opened_stands = { λ told d k. absurd told };

    ghost holds_bytes = { λ told d k. absurd told };

    ghost agrees = { λ told d k. absurd told };

    ghost absent = { λ told d k. absurd told };

    ghost as_read = { λ told d k. absurd told };

    fn scan(&mut self, alloc: Global, partition: &str) -> Result<Names, DevError>
        ensures counts { Counted result (file_faults self.old) (file_faults self.new) (file_time self.old).calls (file_time self.new).calls }
        ensures noted { Noted result (file_faults self.old) (file_faults self.new) (file_lost self.old) (file_lost self.new) }
        ensures opened { file_opened self.new ≡ file_opened self.old }
        ensures folder { OnOk result (is_folder_name partition.now ≡ true) }
        ensures bad_folder { is_folder_name partition.now ≡ false → result ≡ Err DevError.Fault }
    {
        let done = self.try_scan(alloc, partition);
        self.end(Call::Scan, partition, b"", done)
    }

    fn open_blob(&mut self, partition: &str, name: &[u8]) -> Result<u64, DevError>
        ensures counts { Counted result (file_faults self.old) (file_faults self.new) (file_time self.old).calls (file_time self.new).calls }
        ensures noted { Noted result (file_faults self.old) (file_faults self.new) (file_lost self.old) (file_lost self.new) }
        ensures opened { IfOk result (λ n. file_opened self.new ≡ entered (file_opened self.old) (partition.now, name.now) n) }
        ensures opened_err { OnErr result (file_opened self.new ≡ file_opened self.old) }
        ensures folder { OnOk result (is_folder_name partition.now ≡ true) }
        ensures bad_folder { is_folder_name partition.now ≡ false → result ≡ Err DevError.Fault }
        ensures lost_fails { file_lost self.old ≡ true → result ≡ Err DevError.Fault }
    {
        let done = self.try_open(partition, name);
        self.end(Call::Open, partition, name, done)
    }

    fn read_at(
        &mut self,
        partition: &str,
        name: &[u8],
        offset: u64,
        buf: &mut [u8],
    ) -> Result<(), DevError>
        requires { IsSomeAnd (file_opened self.old (partition.now, name.now)) (λ o. offset + length buf.old ≤ o.len) }
        ensures counts { Counted result (file_faults self.old) (file_faults self.new) (file_time self.old).calls (file_time self.new).calls }
        ensures noted { Noted result (file_faults self.old) (file_faults self.new) (file_lost self.old) (file_lost self.new) }
        ensures opened { file_opened self.new ≡ updated (file_opened self.old) (partition.now, name.now) one_more_read }
    {
        let done = self.try_read(partition, name, offset, buf);
        self.end(Call::Read, partition, name, done)
    }

    fn write_at(
        &mut self,
        partition: &str,
        name: &[u8],
        offset: u64,
        bytes: &[u8],
    ) -> Result<(), DevError>
        requires open { IsSome (file_opened self.old (partition.now, name.now)) }
        requires fits { offset + length bytes.now < 2 ^ 64 }
        ensures counts { Counted result (file_faults self.old) (file_faults self.new) (file_time self.old).calls (file_time self.new).calls }
        ensures noted { Noted result (file_faults self.old) (file_faults self.new) (file_lost self.old) (file_lost self.new) }
        ensures opened { OnOk result (file_opened self.new ≡ updated (file_opened self.old) (partition.now, name.now) (λ o. with_len (max o.len (offset + length bytes.now)) o)) }
        ensures opened_err { OnErr result (PartlyGrown (partition.now, name.now) (offset + length bytes.now) (file_opened self.old) (file_opened self.new)) }
    {
        let done = self.try_write(partition, name, offset, bytes);
        self.end(Call::Write, partition, name, done)
    }

    fn resize(&mut self, partition: &str, name: &[u8], len: u64) -> Result<(), DevError>
        requires { IsSome (file_opened self.old (partition.now, name.now)) }
        ensures counts { Counted result (file_faults self.old) (file_faults self.new) (file_time self.old).calls (file_time self.new).calls }
        ensures noted { Noted result (file_faults self.old) (file_faults self.new) (file_lost self.old) (file_lost self.new) }
        ensures opened { OnOk result (file_opened self.new ≡ updated (file_opened self.old) (partition.now, name.now) (with_len len)) }
        ensures opened_err { OnErr result ((file_opened self.new ≡ file_opened self.old) ⊎ (file_opened self.new ≡ updated (file_opened self.old) (partition.now, name.now) (with_len len))) }
    {
        let done = self.try_resize(partition, name, len);
        self.end(Call::Resize, partition, name, done)
    }

    fn sync(&mut self, partition: &str, name: &[u8]) -> Result<(), DevError>
        requires { IsSome (file_opened self.old (partition.now, name.now)) }
        ensures counts { Counted result (file_faults self.old) (file_faults self.new) (file_time self.old).calls (file_time self.new).calls }
        ensures noted { Noted result (file_faults self.old) (file_faults self.new) (file_lost self.old) (file_lost self.new) }
        ensures opened { file_opened self.new ≡ file_opened self.old }
        ensures lost_fails { file_lost self.old ≡ true → result ≡ Err DevError.Fault }
    {
        let done = self.try_sync(partition, name);
        self.end(Call::Sync, partition, name, done)
    }

    fn remove(&mut self, partition: &str, name: &[u8]) -> Result<(), DevError>
        ensures counts { Counted result (file_faults self.old) (file_faults self.new) (file_time self.old).calls (file_time self.new).calls }
        ensures noted { Noted result (file_faults self.old) (file_faults self.new) (file_lost self.old) (file_lost self.new) }
        ensures opened { OnOk result (file_opened self.new ≡ left (file_opened self.old) (partition.now, name.now)) }
        ensures opened_err { OnErr result ((file_opened self.new ≡ file_opened self.old) ⊎ (file_opened self.new ≡ left (file_opened self.old) (partition.now, name.now))) }
        ensures folder { OnOk result (is_folder_name partition.now ≡ true) }
        ensures bad_folder { is_folder_name partition.now ≡ false → result ≡ Err DevError.Fault }
        ensures lost_fails { file_lost self.old ≡ true → result ≡ Err DevError.Fault }
    {
        let done = self.try_remove(partition, name);
        self.end(Call::Remove, partition, name, done)
    }

    fn calls(&self) -> u64 {
        self.calls
    }
}

/// A call of the device, as a message names it.
#[derive(Clone, Copy)]
enum Call {
    Scan,
    Open,
    Read,
    Write,
    Resize,
    Sync,
    Remove,
}

impl fmt::Display for Call {
    fn fmt<W: fmt::Write>(&self, f: &mut fmt::Formatter<W>) -> fmt::Result {
        f.write_str(match self {
            Call::Scan => "scan",
            Call::Open => "open",
            Call::Read => "read",
            Call::Write => "write",
            Call::Resize => "resize",
            Call::Sync => "sync",
            Call::Remove => "remove",
        })
    }
}
