// A device that notes what the calls take off the blobs of another one.
ghost use Rattle.std.specs.Prelude.{◌≡◌};

use crate::notebook::Notebook;
use blob_device::{DevError, Device, Names};
use std::alloc::Global;

/// A device that passes each call on to another one, and notes which of them took something off a blob. It tells its disk where
/// that one does.
#[derive(Drop)]
pub struct Noting<D> {
    // the device that does the work: each call reaches it once, unchanged
    inner: D,
    // what those calls took off blobs, entered behind each that ended Ok
    notebook: Notebook,
}

impl<D> Noting<D> {
    /// Notes the calls of this device from now on. It takes no memory.
    pub fn new(alloc: Global, inner: D) -> Noting<D>
        ensures { result.inner ≡ inner }
    {
        Noting {
            inner,
            notebook: Notebook::new(alloc),
        }
    }

    /// The device whose calls are noted.
    pub fn inner(&self) -> &D
        ensures { result.now ≡ self.now.inner }
    {
        &self.inner
    }

    /// What was noted.
    pub fn notebook(&self) -> &Notebook {
        &self.notebook
    }
}

impl<D: Device> Device for Noting<D> {
    ghost Tells = { D.Tells };

    ghost time = { λ n. D.time n.inner };

    ghost faults = { λ n. D.faults n.inner };

    ghost opened = { λ n. D.opened n.inner };

    ghost opened_stands = { λ told n k. D.opened_stands told n.inner k };

    ghost holds_bytes = { λ told n k. D.holds_bytes told n.inner k };

    ghost agrees = { λ told n k. D.agrees told n.inner k };

    ghost absent = { λ told n k. D.absent told n.inner k };

    ghost as_read = { λ told n k. D.as_read told n.inner k };

    fn scan(&mut self, alloc: Global, partition: &str) -> Result<Names, DevError> {
        self.inner.scan(alloc, partition)
    }

    fn open_blob(&mut self, partition: &str, name: &[u8]) -> Result<u64, DevError> {
        let len = self.inner.open_blob(partition, name)?;
        self.notebook.enter_open(partition, name, len);
        Ok(len)
    }

    fn read_at(
        &mut self,
        partition: &str,
        name: &[u8],
        offset: u64,
        buf: &mut [u8],
    ) -> Result<(), DevError> {
        self.inner.read_at(partition, name, offset, buf)
    }

    fn write_at(
        &mut self,
        partition: &str,
        name: &[u8],
        offset: u64,
        bytes: &[u8],
    ) -> Result<(), DevError> {
        let call = self.inner.calls();
        // Noted only where it returned Ok: after an error the run ends, and nothing is said of its bytes.
        self.inner.write_at(partition, name, offset, bytes)?;
        self.notebook
            .enter_write(call, partition, name, (offset, bytes));
        Ok(())
    }

    fn resize(&mut self, partition: &str, name: &[u8], len: u64) -> Result<(), DevError> {
        let call = self.inner.calls();
        // Noted only where it returned Ok, since only then something was cut for good.
        self.inner.resize(partition, name, len)?;
        self.notebook.enter_resize(call, partition, name, len);
        Ok(())
    }

    fn sync(&mut self, partition: &str, name: &[u8]) -> Result<(), DevError> {
        // It takes nothing off, so there is nothing to note.
        self.inner.sync(partition, name)
    }

    fn remove(&mut self, partition: &str, name: &[u8]) -> Result<(), DevError> {
        let call = self.inner.calls();
        // Noted only where it returned Ok, since only then the blob is gone for good.
        self.inner.remove(partition, name)?;
        self.notebook.enter_remove(call, partition, name);
        Ok(())
    }

    fn calls(&self) -> u64 {
        self.inner.calls()
    }
}
