// Opening a manager, and the sections in it.
ghost use Rattle.std.specs.Prelude.{◌≡◌, ◌≢◌, ◌≤◌, ◌<◌, ◌⊎◌, ◌^◌, ◌-◌, ℕ, Some, None, List, length, map, IfOk, OnOk, OnErr, Err, IsSome, IsTrue, string_bytes};
ghost use Rattle.std.specs.Result.{IsErrOf};
ghost use Rattle.std.specs.List.{Contains};
ghost use Rattle.std.specs.Int.{w64, to_be_bytes};
ghost use Rattle.std.specs.Borrow.{sem};
ghost use Rattle.blob_device.specs.Timeline.{disk};
ghost use Rattle.section_manager.specs.Answers.{seen};
ghost use Rattle.section_manager.specs.Sections.{key_of, IsOver, SameBounds};

use super::{Manager, ManagerConfig};
use crate::held::Held;
use crate::journal::Error;
use crate::unopened::Unopened;
use crate::{BufferFactory, SectionBuffer};
use blob_device::{Device, Names};
use std::alloc::Global;
use std::collections::BTreeMap;
use value_codec::HexName;

/// The sections of a partition that a [`scan`](Manager::scan) found. None of them is opened.
#[derive(Drop)]
pub struct Found<F> {
    /// Where memory for maps and buffers comes from.
    alloc: Global,
    /// The partition of the sections' blobs.
    partition: String,
    /// What makes their buffers.
    factory: F,
    /// Their numbers, in the order of the names.
    numbers: Vec<u64>,
}

impl<F: BufferFactory> Found<F> {
    ghost use Rattle.section_manager.specs.managing.Finding.{finding, AreSectionsIn};
    ghost use Rattle.section_manager.specs.managing.Managed.{shown};
    ghost use Rattle.section_manager.specs.managing.Opening.{OpensFound};

    /// Opens the sections that were found, up to this one. The partition has to have the same blobs still.
    pub fn open<D: Device>(self, dev: &mut D, ceiling: u64) -> Result<Manager<F>, Error>
        requires there { D.Tells → AreSectionsIn (disk (D.time dev.old)) (finding self).partition
            (finding self).numbers }
        ensures { OpensFound F.Buffer.SectionBuffer F.gives D.Device
            (finding self).partition (finding self).factory ceiling
            dev.old dev.new (seen shown result) }
    {
        let Found {
            alloc,
            partition,
            factory,
            numbers,
        } = self;
        let this = Manager::found(alloc, partition, factory, numbers.as_slice(), ceiling)?;
        this.open_each(dev, numbers.as_slice())
    }
}

// The number that a blob's name spells.
fn section_number(alloc: Global, name: &[u8]) -> Result<u64, Error>
    ensures number { IfOk result (λ n. (name.now ≡ to_be_bytes w64 n) × (n < 2 ^ 64)) }
    ensures foreign { (n : List ℕ) → result ≡ Err (Error.InvalidBlobName n)
        → (n ≡ name.now) × (length name.now ≢ 8) }
    ensures size { OnOk result (length name.now ≡ 8) }
    ensures cause { OnErr result (IsErrOf result Error.Mem
        ⊎ IsErrOf result (Error.InvalidBlobName name.now)) }
{
    let Some(bytes) = name.first_chunk::<8>() else {
        return Err(Error::InvalidBlobName(HexName::new(alloc, name)?));
    };
    if name.len() > 8 {
        return Err(Error::InvalidBlobName(HexName::new(alloc, name)?));
    }
    Ok(u64::from_be_bytes(*bytes))
}

// The numbers that the names spell, in their order. It refuses the first name that spells none.
fn section_numbers(alloc: Global, names: &Names) -> Result<Vec<u64>, Error>
    ensures numbers { IfOk result (λ r. map (to_be_bytes w64) r.items ≡ names.now) }
    ensures foreign { (n : List ℕ) → result ≡ Err (Error.InvalidBlobName n)
        → Contains names.now n × (length n ≢ 8) }
    ensures cause { OnErr result (IsErrOf result Error.Mem
        ⊎ ((n : List ℕ) × IsErrOf result (Error.InvalidBlobName n))) }
{
    let mut numbers = Vec::new(alloc);
    for i in 0..names.len() {
        let Some(name) = names.get(i) else { break };
        numbers.push(section_number(alloc, name)?)?;
    }
    Ok(numbers)
}

impl<F: BufferFactory> Manager<F> {
    ghost use Rattle.section_manager.specs.managing.Managed.{shown};
    ghost use Rattle.section_manager.specs.managing.Finding.{finding, Scans};
    ghost use Rattle.section_manager.specs.managing.Lending.{IsRefused, lends_made};
    ghost use Rattle.section_manager.specs.managing.Opening.{Creates, Holds, Inits, Knows};
    ghost use Rattle.section_manager.specs.managing.Opening.{OpensBlob, OpensEach, OpensNext, Puts, Takes};

    // A manager that knows these sections and has opened none.
    fn found(
        alloc: Global,
        partition: String,
        factory: F,
        numbers: &[u64],
        ceiling: u64,
    ) -> Result<Self, Error>
        ensures { Knows (string_bytes partition) factory ceiling numbers.now (seen shown result) }
    {
        let mut unopened = BTreeMap::new(alloc);
        for number in numbers {
            unopened.insert(*number, Unopened::Section)?;
        }
        Ok(Manager {
            alloc,
            partition,
            factory,
            held: Held::new(alloc),
            unopened,
            floor: 0,
            ceiling,
        })
    }

    /// Opens the sections of the partition.
    ///
    /// It refuses a blob with a name that is no section's, before it changes anything.
    pub fn init<D: Device>(alloc: Global, dev: &mut D, cfg: ManagerConfig<F>) -> Result<Self, Error>
        ensures { Inits F.Buffer.SectionBuffer F.gives D.Device
            (string_bytes cfg.partition) cfg.factory (2 ^ 64 - 1)
            dev.old dev.new (seen shown result) }
    {
        Manager::init_bounded(alloc, dev, cfg, u64::MAX)
    }

    /// Opens the sections of the partition up to this one. The later ones are known and not opened, until
    /// they are removed by a [`truncate_pending`](Manager::truncate_pending), a [`prune`](Manager::prune)
    /// or a [`clear`](Manager::clear).
    ///
    /// It refuses a blob with a name that is no section's, before it changes anything.
    pub fn init_bounded<D: Device>(
        alloc: Global,
        dev: &mut D,
        cfg: ManagerConfig<F>,
        ceiling: u64,
    ) -> Result<Self, Error>
        ensures { Inits F.Buffer.SectionBuffer F.gives D.Device
            (string_bytes cfg.partition) cfg.factory ceiling dev.old dev.new (seen shown result) }
    {
        // All names before a blob is opened: a foreign one is refused with nothing changed.
        let found = Manager::scan(alloc, dev, cfg)?;
        found.open(dev, ceiling)
    }

    /// The sections of the partition, of which none is opened yet. [`open`](Found::open) opens them.
    ///
    /// It refuses a blob with a name that is no section's. It changes nothing.
    pub fn scan<D: Device>(
        alloc: Global,
        dev: &mut D,
        cfg: ManagerConfig<F>,
    ) -> Result<Found<F>, Error>
        ensures { Scans D.Device (string_bytes cfg.partition) cfg.factory dev.old dev.new
            (seen finding result) }
    {
        let ManagerConfig { partition, factory } = cfg;
        let names = dev.scan(alloc, partition.as_str())?;
        let numbers = section_numbers(alloc, &names)?;
        Ok(Found {
            alloc,
            partition,
            factory,
            numbers,
        })
    }

    // Opens those of these sections that are not above the ceiling. They are all that are known, and their
    // blobs are there.
    fn open_each<D: Device>(self, dev: &mut D, numbers: &[u64]) -> Result<Self, Error>
        requires over { IsOver F.Buffer.SectionBuffer F.gives D.Tells (shown self)
            (D.opened dev.old) (disk (D.time dev.old)) }
        requires fresh { (s : ℕ) → (shown self).held s ≡ None }
        requires known { (s : ℕ) → Contains numbers.now s
            → (shown self).unopened s ≡ Some Unopened.Section }
        requires others { (s : ℕ) → (Contains numbers.now s → ⊥) → (shown self).unopened s ≡ None }
        requires there { D.Tells → (s : ℕ) → Contains numbers.now s
            → IsTrue (disk (D.time dev.old) (key_of (shown self) s)).there }
        requires floor { (shown self).floor ≡ 0 }
        ensures { OpensEach F.Buffer.SectionBuffer F.gives D.Device (shown self)
            numbers.now dev.old dev.new (seen shown result) }
    {
        let mut this = self;
        for number in numbers {
            this = this.open_found(dev, *number)?;
        }
        Ok(this)
    }

    // Opens a section that is not held, unless it is above the ceiling.
    fn open_found<D: Device>(self, dev: &mut D, section: u64) -> Result<Self, Error>
        requires over { IsOver F.Buffer.SectionBuffer F.gives D.Tells (shown self)
            (D.opened dev.old) (disk (D.time dev.old)) }
        requires floor { (shown self).floor ≡ 0 }
        ensures { OpensNext F.Buffer.SectionBuffer F.gives D.Device (shown self) section
            dev.old dev.new (seen shown result) }
    {
        let mut this = self;
        if section > this.ceiling {
            return Ok(this);
        }
        this.hold(dev, section)?;
        Ok(this)
    }

    // Opens the section's blob, and makes its buffer.
    fn open<D: Device>(&self, dev: &mut D, section: u64) -> Result<F::Buffer, Error>
        ensures { OpensBlob F.Buffer.SectionBuffer F.gives D.Device
            (key_of (shown self.now) section) (shown self.now).factory dev.old dev.new result }
    {
        let name = section.to_be_bytes();
        let partition = self.partition.as_str();
        // An opening settles what stands there, so no crash takes bytes over which the buffer is made.
        let size = dev.open_blob(partition, name.as_slice())?;
        let buffer = self
            .factory
            .create(self.alloc, dev, partition, name.as_slice(), size)?;
        Ok(buffer)
    }

    /// Takes the section's buffer out, for a call that consumes it; [`put`](Manager::put) gives it back. A
    /// section that is not held is made.
    ///
    /// Until the buffer is back the section is not held; its blob stays known, and is removed with the
    /// others.
    pub fn take<D: Device>(&mut self, dev: &mut D, section: u64) -> Result<F::Buffer, Error>
        requires over { IsOver F.Buffer.SectionBuffer F.gives D.Tells (shown self.old)
            (D.opened dev.old) (disk (D.time dev.old)) }
        requires ceiling { section ≤ (shown self.old).ceiling }
        ensures { Takes F.Buffer.SectionBuffer F.gives D.Device (shown self.old) section
            (shown self.new) dev.old dev.new result }
    {
        self.prune_guard(section)?;
        if !self.held.contains(section) {
            return self.make(dev, section);
        }
        self.unopened.insert(section, Unopened::Section)?;
        // The section is held.
        Ok(self.held.remove(section).unwrap())
    }

    // Opens a section that is not held. Its blob is known from then on, also where that fails.
    fn make<D: Device>(&mut self, dev: &mut D, section: u64) -> Result<F::Buffer, Error>
        requires over { IsOver F.Buffer.SectionBuffer F.gives D.Tells (shown self.old)
            (D.opened dev.old) (disk (D.time dev.old)) }
        requires absent { (shown self.old).held section ≡ None }
        requires floor { (shown self.old).floor ≤ section }
        ensures { Takes F.Buffer.SectionBuffer F.gives D.Device (shown self.old) section
            (shown self.new) dev.old dev.new result }
    {
        self.expect(section)?;
        // Known before it is opened: a call that fails may have made the blob.
        let buffer = self.open(dev, section)?;
        self.unopened.insert(section, Unopened::Section)?;
        Ok(buffer)
    }

    // Notes that the section's blob may be there.
    fn expect(&mut self, section: u64) -> Result<(), Error>
        ensures known { OnOk result (IsSome ((shown self.new).unopened section)) }
        ensures still_section { (shown self.new).unopened section ≡ Some Unopened.Section
            → (shown self.old).unopened section ≡ Some Unopened.Section }
        ensures held { (q : ℕ) → (shown self.new).held q ≡ (shown self.old).held q }
        ensures others { (q : ℕ) → q ≢ section
            → (shown self.new).unopened q ≡ (shown self.old).unopened q }
        ensures refused { OnErr result ((shown self.new).unopened section
            ≡ (shown self.old).unopened section) }
        ensures bounds { SameBounds (shown self.old) (shown self.new) }
        ensures cause { OnErr result (IsErrOf result Error.Mem) }
    {
        if !self.unopened.contains_key(&section) {
            self.unopened.insert(section, Unopened::Leftover)?;
        }
        Ok(())
    }

    /// Gives a buffer to a section that is not held, as after a [`take`](Manager::take).
    pub fn put(&mut self, section: u64, buffer: F::Buffer) -> Result<(), Error>
        requires absent { (shown self.old).held section ≡ None }
        requires floor { (shown self.old).floor ≤ section }
        requires ceiling { section ≤ (shown self.old).ceiling }
        requires key { F.Buffer.key buffer ≡ key_of (shown self.old) section }
        ensures { Puts F.Buffer.SectionBuffer F.gives (shown self.old) section buffer
            (shown self.new) result }
    {
        self.held.insert(section, buffer)?;
        self.unopened.remove(&section);
        Ok(())
    }

    // Makes the section, if it is not held.
    fn hold<D: Device>(&mut self, dev: &mut D, section: u64) -> Result<(), Error>
        requires over { IsOver F.Buffer.SectionBuffer F.gives D.Tells (shown self.old)
            (D.opened dev.old) (disk (D.time dev.old)) }
        requires ceiling { section ≤ (shown self.old).ceiling }
        ensures { Holds F.Buffer.SectionBuffer F.gives D.Device (shown self.old) section
            (shown self.new) dev.old dev.new result }
    {
        self.prune_guard(section)?;
        if self.held.contains(section) {
            return Ok(());
        }
        self.expect(section)?;
        // Known before it is opened: a call that fails may have made the blob.
        let buffer = self.open(dev, section)?;
        self.put(section, buffer)?;
        Ok(())
    }

    /// The section's buffer, to write through. A section that is not held is made.
    pub fn get_or_create<D: Device>(
        &mut self,
        dev: &mut D,
        section: u64,
    ) -> Result<&mut F::Buffer, Error>
        requires over { IsOver F.Buffer.SectionBuffer F.gives D.Tells (shown self.old)
            (D.opened dev.old) (disk (D.time dev.old)) }
        requires ceiling { section ≤ (shown self.old).ceiling }
        // The section ends with what was written last; where it was refused, the sections are as before.
        ensures* writes_back { sem 𝓛 (lends_made F.row F.Buffer.row self.entry section result (λ n.
            IsRefused section (shown self.old) n × IsOver F.Buffer.SectionBuffer F.gives D.Tells n
            (D.opened dev.new) (disk (D.time dev.new)))) }
        ensures creates { Creates F.Buffer.SectionBuffer F.gives D.Device
            (shown self.old) section dev.old dev.new (seen (λ r. r.now) result) }
    {
        self.hold(dev, section)?;
        // The section is held.
        Ok(self.held.get_mut(section).unwrap())
    }
}
