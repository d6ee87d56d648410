// Small numbers for sections.
ghost use Rattle.std.specs.Prelude.{◌≡◌, ◌<◌, ◌^◌, ℕ, [], Some, length, slice_get};
ghost use Rattle.record_tables.specs.Slots.{AreBare, AreSlots, Frees, HasSlot, Takes};

use std::alloc::{AllocError, Global};

/// Which section has which slot. A slot that was freed is taken again before a new one is made.
#[derive(Drop)]
pub(crate) struct Slots {
    // by slot the section that has it, or had it last
    sections: Vec<u64>,
    // the slots that no section has, each once: there is room for all
    free: Vec<u32>,
}

impl Slots {
    /// No section has a slot. It takes no memory.
    pub(crate) fn new(alloc: Global) -> Slots
        ensures { AreBare result }
    {
        Slots {
            sections: Vec::new(alloc),
            free: Vec::new(alloc),
        }
    }

    /// The section that has this slot.
    pub(crate) fn section(&self, slot: u32) -> u64
        requires { slot < length self.now.sections.items }
        ensures { slice_get self.now.sections.items slot ≡ Some result }
    {
        self.sections[slot as usize]
    }

    /// Gives the section a slot. On an error nothing has changed.
    pub(crate) fn take(&mut self, section: u64) -> Result<u32, AllocError>
        requires slots { AreSlots self.old }
        requires few { self.old.free.items ≡ [] → length self.old.sections.items < 2 ^ 24 }
        ensures { Takes section self.old result self.new }
    {
        if let Some(slot) = self.free.pop() {
            self.sections[slot as usize] = section;
            return Ok(slot);
        }
        let slot = self.sections.len();
        // Room to free it comes first: freeing takes no memory.
        self.free.reserve(slot + 1)?;
        self.sections.push(section)?;
        Ok(slot as u32)
    }

    /// Takes the slot from the section that has it. It takes no memory.
    pub(crate) fn free(&mut self, slot: u32)
        requires slots { AreSlots self.old }
        requires taken { (s : ℕ) × HasSlot self.old slot s }
        requires some { length self.old.free.items < length self.old.sections.items }
        ensures { Frees slot self.old self.new }
    {
        self.free.push(slot).unwrap();
    }
}
