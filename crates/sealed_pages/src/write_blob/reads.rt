// Reads of a buffer over a blob without seals.
ghost use Rattle.std.specs.Prelude.{◌≡◌, ◌+◌, ◌≤◌, ◌<◌, ◌^◌, ◌↔◌, Err, length, OnOk, IsTrue};
ghost use Rattle.blob_device.specs.Timeline.{disk};
ghost use Rattle.blob_device.specs.Counts.{Rose};
ghost use Rattle.sealed_pages.specs.Entries.{IsOpenAt, ReadsAtMost};
ghost use Rattle.sealed_pages.specs.Reading.{Unchanged};
ghost use Rattle.sealed_pages.specs.Filled.{HasBytes};

use super::WriteBlob;
use super::run::overlay;
use blob_device::{DevError, Device, RError};

impl WriteBlob {
    ghost use Rattle.sealed_pages.specs.unsealed.RunCalls.{ReadsAt};
    ghost use Rattle.sealed_pages.specs.unsealed.Writing.{shown, blob_key, LiesInRun};

    // Whether a range is in the run as a whole.
    fn holds(&self, offset: u64, n: usize) -> bool
        requires { offset + n < 2 ^ 64 }
        ensures { IsTrue result ↔ LiesInRun (shown self.now) offset n }
    {
        self.at <= offset && offset + n as u64 <= self.at + self.pending.len() as u64
    }

    // Fills `buf` with what the blob has from `offset` on, and zeros past its end.
    fn read_blob<D: Device>(&self, dev: &mut D, offset: u64, buf: &mut [u8]) -> Result<(), DevError>
        requires open { IsOpenAt (D.opened dev.old) (blob_key (shown self.now)) self.now.end }
        requires fits { offset + length buf.old < 2 ^ 64 }
        ensures bytes { D.Tells → OnOk result (HasBytes
            (disk (D.time dev.old) (blob_key (shown self.now))).content offset buf.new) }
        ensures unchanged { D.Tells → Unchanged (D.time dev.old) (D.time dev.new) }
        ensures reads { ReadsAtMost 1 (blob_key (shown self.now)) (D.opened dev.old) (D.opened dev.new) }
        ensures none { length buf.old ≡ 0 → dev.new ≡ dev.old }
        ensures faults { D.faults dev.old ≤ D.faults dev.new }
        ensures cause { result ≡ Err DevError.Fault → Rose (D.faults dev.old) (D.faults dev.new) }
    {
        let have = self.end.saturating_sub(offset).min(buf.len() as u64) as usize;
        buf[have..].fill(0);
        if have == 0 {
            return Ok(());
        }
        let part = &mut buf[..have];
        dev.read_at(self.partition.as_str(), self.name.as_slice(), offset, part)
    }

    /// The bytes from `offset` on. It reads the blob at most once, and not at all where all of them are in
    /// the run. After an Err, `buf` holds any bytes.
    pub fn read_at<D: Device>(&self, dev: &mut D, offset: u64, buf: &mut [u8]) -> Result<(), RError>
        requires open { IsOpenAt (D.opened dev.old) (blob_key (shown self.now)) self.now.end }
        ensures { ReadsAt D.Device (shown self.now) dev.old dev.new offset buf.old buf.new result }
    {
        let len = buf.len() as u64;
        if len > u64::MAX - offset {
            return Err(RError::OffsetOverflow);
        }
        if offset + len > self.size() {
            return Err(RError::BlobInsufficientLength);
        }
        if !self.holds(offset, buf.len()) {
            self.read_blob(dev, offset, buf)?;
        }
        overlay(self.at, self.pending.as_slice(), offset, buf);
        Ok(())
    }
}
