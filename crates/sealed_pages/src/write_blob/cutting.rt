// Cutting a buffer over a blob without seals.
ghost use Rattle.std.specs.Prelude.{◌≡◌, ◌≤◌};
ghost use Rattle.sealed_pages.specs.Entries.{IsOpenAt};

use super::WriteBlob;
use blob_device::{DevError, Device, RError};

impl WriteBlob {
    ghost use Rattle.sealed_pages.specs.unsealed.RunCalls.{Shortens, Truncates};
    ghost use Rattle.sealed_pages.specs.unsealed.Writing.{shown, blob_key, short_run};

    // Takes away what the run has from this length on.
    fn cut_run(self, len: u64) -> WriteBlob
        ensures { shown result ≡ short_run (shown self) len }
    {
        let mut this = self;
        this.at = this.at.min(len);
        let rest = (len - this.at) as usize;
        this.pending.truncate(rest);
        this
    }

    // Cuts the blob to this length, if it is longer.
    fn shortened<D: Device>(self, dev: &mut D, len: u64) -> Result<WriteBlob, DevError>
        requires open { IsOpenAt (D.opened dev.old) (blob_key (shown self)) self.end }
        requires within { len ≤ self.end }
        ensures { Shortens D.Device (shown self) dev.old dev.new shown len result }
    {
        if self.end <= len {
            return Ok(self);
        }
        // Behind the flush: what the run had below the cut is in the blob by now.
        dev.resize(self.partition.as_str(), self.name.as_slice(), len)?;
        let mut this = self;
        this.end = len;
        this.settled = this.settled.min(len);
        this.dirty = true;
        Ok(this)
    }

    /// Cuts the bytes to this length, for good. With `len` at or above the size nothing changes.
    pub fn truncate<D: Device>(self, dev: &mut D, len: u64) -> Result<WriteBlob, RError>
        requires open { IsOpenAt (D.opened dev.old) (blob_key (shown self)) self.end }
        ensures { Truncates D.Device (shown self) dev.old dev.new shown len result }
    {
        if len >= self.size() {
            return Ok(self);
        }
        // What the run keeps goes first, since the cut settles all bytes below it.
        let this = self.cut_run(len).flushed(dev)?;
        // Then the end, so that one sync settles both.
        let this = this.shortened(dev, len)?;
        // At once: no crash may bring the bytes back once others are written there.
        Ok(this.rested(dev)?)
    }
}
