// The crash images that a device in memory picks.
ghost use Rattle.std.specs.Prelude.{◌≡◌, ◌+◌, ◌%◌, ◌<◌, ◌||◌, cond, List, ℕ, Option, Some, None};
ghost use Rattle.blob_device.specs.Picked.{settled_of, mixed_of, number_past};
ghost use Rattle.blob_device.specs.Calls.{now};
ghost use Rattle.blob_device.specs.Tracks.{track_of};

use crate::memory::blob_log::BlobLog;
use crate::memory::build::Make;
use std::alloc::{AllocError, Global};

/// Which of the images that a crash now may leave is picked.
#[derive(Clone, Copy, Debug, PartialEq, Eq)]
pub enum CrashChoice {
    /// Each blob as it last settled.
    Settled,
    /// The image as it reads.
    AsRead,
    /// Each blob with its greatest length where the number is odd, and else with its least. The bytes that a crash may
    /// change are numbered from 0 in order of partition, name and offset: byte i is as it reads where bit `i mod 64` of
    /// the number is 1 and the blob reads that far, and else 255. A blob that may be there or not is there.
    Mixed(u64),
}

impl CrashChoice {
    /// Choices that a test tries: all that was asked for, nothing more than what was synced, and mixtures of both.
    pub const SAMPLES: [CrashChoice; 14] = [
        CrashChoice::Settled,
        CrashChoice::AsRead,
        CrashChoice::Mixed(0),
        CrashChoice::Mixed(1),
        CrashChoice::Mixed(2),
        CrashChoice::Mixed(3),
        CrashChoice::Mixed(4),
        CrashChoice::Mixed(5),
        CrashChoice::Mixed(6),
        CrashChoice::Mixed(7),
        CrashChoice::Mixed(u64::MAX),
        CrashChoice::Mixed(u64::MAX - 1),
        CrashChoice::Mixed(0x5555_5555_5555_5555),
        CrashChoice::Mixed(0xAAAA_AAAA_AAAA_AAAA),
    ];
}

/// Gives each blob as it last settled.
#[derive(Drop)]
pub(crate) struct AsSettled {}

impl Make<BlobLog, Vec<u8>> for AsSettled {
    ghost Seen = { List ℕ };

    ghost sees = { λ v. v.items };

    ghost makes = { λ _ l. settled_of (now (track_of l)) };

    ghost next = { λ s _. s };

    fn make(&mut self, alloc: Global, value: &BlobLog) -> Result<Option<Vec<u8>>, AllocError> {
        Ok(value.history(alloc)?.into_settled())
    }
}

/// Gives each blob mixed. The number of the next free place runs along, modulo 64.
#[derive(Drop)]
pub(crate) struct Mixer {
    /// The number of the choice: its bit 0 says the lengths, its bit i mod 64 the byte of free place i.
    bits: u64,
    /// The number of the next free place, modulo 64 (`number_past`).
    number: u64,
}

impl Mixer {
    pub fn new(bits: u64) -> Mixer
        ensures bits { result.bits ≡ bits }
        ensures number { result.number ≡ 0 }
    {
        Mixer { bits, number: 0 }
    }
}

impl Make<BlobLog, Vec<u8>> for Mixer {
    ghost Seen = { List ℕ };

    ghost sees = { λ v. v.items };

    ghost makes = { λ s l. mixed_of s.bits s.number (now (track_of l)) };

    ghost next = { λ s l. record s { number = number_past s.bits s.number (now (track_of l)) } };

    fn make(&mut self, alloc: Global, value: &BlobLog) -> Result<Option<Vec<u8>>, AllocError> {
        let history = value.history(alloc)?;
        if !history.may_be_there() {
            return Ok(None);
        }
        let (bytes, number) = history.mixed(alloc, self.bits, self.number % 64)?;
        self.number = number;
        Ok(Some(bytes))
    }
}
