// What is known of each blob by the calls of a device and their answers: what a crash may leave of it.
use crate::calls::Change;
use crate::left::Left;
use blob_device::Names;
use std::alloc::{AllocError, Global};

/// What is known of a blob.
#[derive(Drop)]
struct Blob {
    // Its partition,
    partition: String,
    // and its name there: no two entries have both alike.
    name: Vec<u8>,
    // Whether it was there by the last answer that told.
    there: bool,
    /// Whether a making or a removal failed since it was there, or not, for good.
    unsure: bool,
    /// The bytes as they read, where they are known.
    content: Vec<Option<u8>>,
    // The least length that a crash may leave, in bytes.
    shortest: usize,
    // The greatest one.
    longest: usize,
    /// The first place and the place behind the last one of each write since it settled.
    loose: Vec<(usize, usize)>,
}

/// What is known of all blobs.
#[derive(Drop)]
pub struct Known {
    // For what is noted of blobs.
    alloc: Global,
    // One for each blob that was named so far.
    blobs: Vec<Blob>,
}

impl Known {
    /// Nothing stands on the device.
    pub fn new(alloc: Global) -> Known {
        Known {
            alloc,
            blobs: Vec::new(alloc),
        }
    }

    /// What stands there at first has settled.
    pub fn of_left(alloc: Global, left: &[Left]) -> Result<Known, AllocError> {
        let mut known = Known::new(alloc);
        for one in left {
            let blob = known.blob(one.partition.as_str(), &one.name)?;
            for byte in one.bytes.iter() {
                blob.content.push(Some(*byte))?;
            }
            blob.settle();
        }
        Ok(known)
    }

    // What is known of a blob.
    fn blob(&mut self, partition: &str, name: &[u8]) -> Result<&mut Blob, AllocError> {
        let mut at = self.blobs.len();
        for (i, blob) in self.blobs.iter().enumerate() {
            if blob.is_at(partition, name) {
                at = i;
            }
        }
        if at == self.blobs.len() {
            self.blobs.push(Blob {
                partition: String::from_str(self.alloc, partition)?,
                name: name.to_vec(self.alloc)?,
                there: false,
                unsure: false,
                content: Vec::new(self.alloc),
                shortest: 0,
                longest: 0,
                loose: Vec::new(self.alloc),
            })?;
        }
        self.blobs.get_mut(at).ok_or(AllocError)
    }

    /// A blob was opened with this length, or an opening failed. It answers what is wrong with that.
    pub fn opened(
        &mut self,
        partition: &str,
        name: &[u8],
        len: Option<u64>,
    ) -> Result<&'static str, AllocError> {
        Ok(self.blob(partition, name)?.opened(len))
    }

    /// A change of a blob was done, or failed.
    pub fn changed(
        &mut self,
        partition: &str,
        name: &[u8],
        change: &Change,
        is_done: bool,
    ) -> Result<(), AllocError> {
        let blob = self.blob(partition, name)?;
        match change {
            Change::Write(offset, bytes) => blob.write(*offset as usize, bytes, is_done)?,
            Change::Resize(len) => blob.resize(*len as usize, is_done)?,
            Change::Sync if is_done => blob.settle(),
            Change::Sync | Change::Read => {}
        }
        Ok(())
    }

    /// A removal was done, or failed.
    pub fn removed(
        &mut self,
        partition: &str,
        name: &[u8],
        is_done: bool,
    ) -> Result<(), AllocError> {
        self.blob(partition, name)?.remove(is_done);
        Ok(())
    }

    /// A listing of a partition showed these names. It answers what is wrong with that. A blob that is not shown is gone for good.
    pub fn listed(&mut self, partition: &str, names: &Names) -> &'static str {
        for blob in self.blobs.iter_mut() {
            if blob.partition.as_str() != partition || has_name(names, &blob.name) {
                continue;
            }
            if blob.there && !blob.unsure {
                return "a scan does not show a blob that is there";
            }
            blob.remove(true);
        }
        ""
    }

    /// What is wrong with these blobs as what a crash leaves; nothing where all is well.
    pub fn wrong_with(&self, left: &[Left]) -> &'static str {
        for blob in self.blobs.iter() {
            let wrong = blob.wrong_with(left);
            if !wrong.is_empty() {
                return wrong;
            }
        }
        for one in left {
            if !self
                .blobs
                .iter()
                .any(|blob| blob.is_at(one.partition.as_str(), &one.name))
            {
                return "a blob is there that none made";
            }
        }
        ""
    }
}

/// Whether this name is among those that a scan gave.
pub fn has_name(names: &Names, name: &[u8]) -> bool {
    (0..names.len()).any(|i| names.get(i) == Some(name))
}

impl Blob {
    fn is_at(&self, partition: &str, name: &[u8]) -> bool {
        self.partition.as_str() == partition && self.name.as_slice() == name
    }

    // The blob as it reads has settled.
    fn settle(&mut self) {
        self.there = true;
        self.unsure = false;
        self.shortest = self.content.len();
        self.longest = self.shortest;
        self.loose.clear();
    }

    // A content of this length began.
    fn begin(&mut self, len: usize) {
        self.shortest = self.shortest.min(len);
        self.longest = self.longest.max(len);
    }

    fn opened(&mut self, len: Option<u64>) -> &'static str {
        let may_be_new = !self.there || self.unsure;
        let Some(len) = len else {
            if may_be_new {
                self.unsure = true;
                self.begin(0);
            }
            if !self.there {
                self.content.clear();
            }
            return "";
        };
        if len == 0 && may_be_new {
            self.content.clear();
        }
        if len != self.content.len() as u64 {
            return "a blob was opened with another length";
        }
        self.settle();
        ""
    }

    // Where it fails, its bytes may be there or not, and the length is as before.
    fn write(&mut self, offset: usize, bytes: &[u8], is_done: bool) -> Result<(), AllocError> {
        let end = offset.saturating_add(bytes.len());
        let len = self.content.len().max(end);
        self.begin(len);
        self.loose.push((offset, end))?;
        if is_done {
            self.content.resize(len, Some(0))?;
        }
        for (j, byte) in bytes.iter().enumerate() {
            if let Some(place) = self.content.get_mut(offset.saturating_add(j)) {
                *place = if is_done { Some(*byte) } else { None };
            }
        }
        Ok(())
    }

    fn resize(&mut self, len: usize, is_done: bool) -> Result<(), AllocError> {
        self.begin(len);
        if is_done {
            self.content.resize(len, Some(0))?;
        }
        Ok(())
    }

    fn remove(&mut self, is_done: bool) {
        if !is_done {
            self.unsure = self.there || self.unsure;
            return;
        }
        self.content.clear();
        self.settle();
        self.there = false;
    }

    // What is wrong with what a crash leaves of the blob.
    fn wrong_with(&self, left: &[Left]) -> &'static str {
        for one in left {
            if !self.is_at(one.partition.as_str(), &one.name) {
                continue;
            }
            if !self.there && !self.unsure {
                return "a blob is there again that was removed, or never made";
            }
            if one.bytes.len() < self.shortest || self.longest < one.bytes.len() {
                return "a blob has a length that it never had";
            }
            if !self.agrees(&one.bytes) {
                return "a blob has lost bytes that had settled";
            }
            return "";
        }
        if self.there && !self.unsure {
            return "a blob is lost that was there";
        }
        ""
    }

    // Whether the bytes are as the blob reads, where no crash may change them.
    fn agrees(&self, bytes: &[u8]) -> bool {
        for (i, (byte, known)) in bytes.iter().zip(self.content.iter()).enumerate() {
            let is_loose = self.loose.iter().any(|range| range.0 <= i && i < range.1);
            if i < self.shortest && !is_loose && known.unwrap_or(*byte) != *byte {
                return false;
            }
        }
        true
    }
}
