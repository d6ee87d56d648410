// What a crash may leave of one blob, found from the calls of its log.
ghost use Rattle.std.specs.Prelude.{◌≡◌, cond, ◌||◌, ◌-◌, ◌%◌, ◌^◌, nat_lt, nat_le, ◌+◌, ◌<◌, ◌≤◌, ◌++◌, [], ◌∷◌, length, take, min, max, OnOk, OnErr, IfOk, true, false, ℕ, List};
ghost use Rattle.blob_device.specs.Disk.{Blob, nothing, settled_at, begun};
ghost use Rattle.blob_device.specs.Change.{Write, Resize, Make, Remove, during};
ghost use Rattle.blob_device.specs.Calls.{after, result_of};
ghost use Rattle.blob_device.specs.Histories.{IsHistory};
ghost use Rattle.blob_device.specs.Picked.{settled_of, is_free, free_below, mixed_byte, mixed_length, IsMixedBlob};
ghost use Rattle.std.specs.Option.{option_map, option_copied};
ghost use Rattle.std.specs.List.{list_all};

use crate::memory::blob_log::{Call, Step, left_of, write_into};
use std::alloc::{AllocError, Global};

/// What a blob reads as, what it settled as, and which lengths and places a crash may change.
#[derive(Drop)]
pub struct History {
    /// Whether the blob is there as the disk reads (`IsHistory.is_there`).
    pub there: bool,
    /// Whether a making or a removal is under way or failed (`IsHistory.is_unsure`).
    pub unsure: bool,
    /// What it reads as (`IsHistory.reads_as`).
    pub content: Vec<u8>,
    /// What it last settled as, empty where it never did (`IsHistory.settled_as`).
    pub settled: Vec<u8>,
    /// The least length of the settled content and those since, in bytes (`IsHistory.least_is`).
    pub shortest: u64,
    /// The greatest of these lengths (`IsHistory.greatest_is`).
    pub longest: u64,
    /// The ranges written since, each as its start and its length in bytes (`IsHistory.loose_are`).
    pub loose: Vec<(u64, u64)>,
}

impl History {
    /// A blob that was never there, or one that had these bytes when the device was made.
    pub fn new(alloc: Global, start: Option<&[u8]>) -> Result<History, AllocError>
        ensures { IfOk result (λ h. IsHistory h (begun (option_copied start.entry))) }
    {
        let mut history = History {
            there: false,
            unsure: false,
            content: Vec::new(alloc),
            settled: Vec::new(alloc),
            shortest: 0,
            longest: 0,
            loose: Vec::new(alloc),
        };
        if let Some(bytes) = start {
            history.content.extend_from_slice(bytes)?;
            history.settle()?;
        }
        Ok(history)
    }

    // The blob as it reads has settled.
    fn settle(&mut self) -> Result<(), AllocError>
        ensures { OnOk result (IsHistory self.new (settled_at self.old.content.items)) }
    {
        self.settled.clear();
        self.settled.extend_from_slice(&self.content)?;
        self.there = true;
        self.unsure = false;
        self.shortest = self.content.len() as u64;
        self.longest = self.shortest;
        self.loose.clear();
        Ok(())
    }

    // A content of this length began.
    fn begin(&mut self, len: u64)
        ensures { self.new ≡ record self.old { shortest = min self.old.shortest len; longest = max self.old.longest len } }
    {
        self.shortest = self.shortest.min(len);
        self.longest = self.longest.max(len);
    }

    // The blob is gone.
    fn forget(&mut self)
        ensures { IsHistory self.new nothing }
    {
        self.there = false;
        self.unsure = false;
        self.content.clear();
        self.settled.clear();
        self.shortest = 0;
        self.longest = 0;
        self.loose.clear();
    }

    // A making begins: an absent blob reads as empty.
    fn begin_make(&mut self)
        ensures { (b : Blob) → IsHistory self.old b → IsHistory self.new (during Make b) }
    {
        if self.there {
            return;
        }
        self.content.clear();
        self.unsure = true;
        self.begin(0);
    }

    fn make(&mut self, failed: bool) -> Result<(), AllocError>
        ensures { OnOk result ((b : Blob) → IsHistory self.old b → IsHistory self.new (result_of Make failed b)) }
    {
        self.begin_make();
        if failed {
            return Ok(());
        }
        self.settle()
    }

    fn write(&mut self, at: u64, bytes: &[u8], failed: bool) -> Result<(), AllocError>
        ensures { OnOk result ((b : Blob) → IsHistory self.old b → IsHistory self.new (result_of (Write at bytes.now) failed b)) }
    {
        let end = match at.checked_add(bytes.len() as u64) {
            Some(end) => end,
            None => return Err(AllocError),
        };
        let len = self.content.len() as u64;
        self.begin(len.max(end));
        self.loose.push((at, bytes.len() as u64))?;
        write_into(&mut self.content, at as usize, left_of(bytes, failed))
    }

    fn resize(&mut self, len: u64, failed: bool) -> Result<(), AllocError>
        ensures { OnOk result ((b : Blob) → IsHistory self.old b → IsHistory self.new (result_of (Resize len) failed b)) }
    {
        self.begin(len);
        if failed {
            return Ok(());
        }
        // Behind `begin`: a crash may leave this length whether or not the resize failed.
        self.content.resize(len as usize, 0)?;
        Ok(())
    }

    fn remove(&mut self, failed: bool)
        ensures { (b : Blob) → IsHistory self.old b → IsHistory self.new (result_of Remove failed b) }
    {
        if failed {
            self.unsure = self.there || self.unsure;
        } else {
            self.forget();
        }
    }

    /// Takes one call more into account.
    pub fn advance(&mut self, call: &Call) -> Result<(), AllocError>
        ensures { OnOk result ((b : Blob) → IsHistory self.old b → IsHistory self.new (after call.now b)) }
    {
        match &call.step {
            Step::Make => self.make(call.failed)?,
            Step::Write(at, bytes) => self.write(*at, bytes.as_slice(), call.failed)?,
            Step::Resize(len) => self.resize(*len, call.failed)?,
            Step::Settle => {
                if !call.failed {
                    self.settle()?;
                }
            }
            Step::Remove => self.remove(call.failed),
        }
        Ok(())
    }

    /// Whether a crash may leave the blob.
    pub fn may_be_there(&self) -> bool
        ensures { (b : Blob) → IsHistory self.now b → result ≡ (b.there || b.unsure) }
    {
        self.there || self.unsure
    }

    /// The blob as it last settled.
    pub fn into_settled(self) -> Option<Vec<u8>>
        ensures { (b : Blob) → IsHistory self b → option_map (λ v. v.items) result ≡ settled_of b }
    {
        if self.there { Some(self.settled) } else { None }
    }

    // Whether a crash may change the byte at this place.
    fn is_free(&self, i: u64) -> bool
        ensures { (b : Blob) → IsHistory self.now b → result ≡ is_free b i }
    {
        !(i < self.shortest && is_outside(&self.loose, i))
    }

    // The length in a mixed image.
    fn mixed_length(&self, bits: u64) -> u64
        ensures { (b : Blob) → IsHistory self.now b → result ≡ mixed_length bits b }
    {
        if bits % 2 == 1 {
            self.longest
        } else {
            self.shortest
        }
    }

    // The byte at a place of a mixed image, where the number of its free place is `number`.
    fn mixed_byte(&self, bits: u64, number: u64, i: u64) -> u8
        requires number { number < 64 }
        requires place { i < 2 ^ 64 }
        ensures { (b : Blob) (first : ℕ) → IsHistory self.now b → number ≡ (first + free_below b i) % 64 → result ≡ mixed_byte bits first b i }
    {
        let read = self.content.get(i as usize).copied();
        let keeps = (bits >> number) % 2 == 1;
        match read {
            Some(byte) if keeps || !self.is_free(i) => byte,
            None if !self.is_free(i) => 0,
            _ => 255,
        }
    }

    /// The blob with its greatest length where `bits` is odd, and else its least: each byte that a crash may change is
    /// 255, but where the bit of its number in `bits` is set and the blob reads that far. The first free place has the
    /// number `first`; the answer has the number of the place after the last too, modulo 64.
    pub fn mixed(&self, alloc: Global, bits: u64, first: u64) -> Result<(Vec<u8>, u64), AllocError>
        requires { first < 64 }
        ensures blob { IfOk result (λ r. (b : Blob) (n : ℕ) → IsHistory self.now b → first ≡ n % 64 → IsMixedBlob bits n b r.0.items) }
        ensures next { IfOk result (λ r. (b : Blob) (n : ℕ) → IsHistory self.now b → first ≡ n % 64 → r.1 ≡ (n + free_below b (mixed_length bits b)) % 64) }
        ensures small { IfOk result (λ r. r.1 < 64) }
    {
        let mut bytes = Vec::new(alloc);
        let mut number = first;
        for i in 0..self.mixed_length(bits) {
            bytes.push(self.mixed_byte(bits, number, i))?;
            number = number_after(number, self.is_free(i));
        }
        Ok((bytes, number))
    }
}

// The number of the next free place.
fn number_after(number: u64, is_free: bool) -> u64
    requires { number < 64 }
    ensures next { result ≡ (number + cond is_free 1 0) % 64 }
    ensures small { result < 64 }
{
    if is_free { (number + 1) % 64 } else { number }
}

fn is_outside(loose: &[(u64, u64)], i: u64) -> bool
    ensures { result ≡ list_all (λ r. nat_lt i r.0 || nat_le r.1 (i - r.0)) loose.now }
{
    loose.iter().all(|r| i < r.0 || r.1 <= i - r.0)
}
