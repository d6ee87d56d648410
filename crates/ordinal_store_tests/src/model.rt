// What a store has to hold, and what of it each crash has to leave.
use crate::asked::{Marks, wants};
use crate::plainly::{Slots, slot_of};
use std::alloc::{AllocError, Global};
use std::collections::BTreeMap;

/// A call that changes the store.
#[derive(Drop)]
pub enum Call {
    /// Opens the store by these marks, or without any.
    Open(Option<Marks>),
    /// Puts the value at the index.
    Put(u64, u64),
    Sync,
    Prune(u64),
    Destroy,
}

/// A map, and the part of it that was synced and not put since.
#[derive(Drop)]
pub struct Model {
    /// The slots that the store holds.
    pub held: Slots,
    /// Those that every crash has to leave.
    pub owed: Slots,
}

impl Call {
    // Whether the call leaves alone what stands at the index.
    fn spares(&self, items: u64, index: u64) -> bool {
        match self {
            Call::Open(marks) => wants(marks, items, index),
            Call::Put(at, _) => *at != index,
            Call::Sync => true,
            Call::Prune(min) => min.checked_div(items) <= index.checked_div(items),
            Call::Destroy => false,
        }
    }

    // The slots that the call leaves alone.
    fn spared(&self, alloc: Global, items: u64, slots: &Slots) -> Result<Slots, AllocError> {
        let mut left = BTreeMap::new(alloc);
        self.add_spared(items, slots, &mut left)?;
        Ok(left)
    }

    // Adds them.
    fn add_spared(&self, items: u64, slots: &Slots, left: &mut Slots) -> Result<(), AllocError> {
        for (index, slot) in slots.iter() {
            if self.spares(items, *index) {
                left.insert(*index, *slot)?;
            }
        }
        Ok(())
    }
}

impl Model {
    /// Nothing is open over a disk that has these slots, settled.
    pub fn over(alloc: Global, slots: Slots) -> Model {
        Model {
            held: BTreeMap::new(alloc),
            owed: slots,
        }
    }

    /// The call begins: what it names is no longer owed.
    pub fn begin(&mut self, alloc: Global, items: u64, call: &Call) -> Result<(), AllocError> {
        self.owed = call.spared(alloc, items, &self.owed)?;
        Ok(())
    }

    /// The call ended well, over a disk that had these slots when it began.
    pub fn end(
        &mut self,
        alloc: Global,
        items: u64,
        call: &Call,
        slots: &Slots,
    ) -> Result<(), AllocError> {
        if let Call::Put(index, value) = call {
            self.held.insert(*index, slot_of(*value))?;
            return Ok(());
        }
        self.held = match call {
            Call::Open(_) => call.spared(alloc, items, slots)?,
            _ => call.spared(alloc, items, &self.held)?,
        };
        match call {
            Call::Open(_) | Call::Sync => self.settle(alloc, items),
            _ => Ok(()),
        }
    }

    // From here on every crash has to leave what is held.
    fn settle(&mut self, alloc: Global, items: u64) -> Result<(), AllocError> {
        self.owed = Call::Sync.spared(alloc, items, &self.held)?;
        Ok(())
    }

    /// The call was refused, and the store is gone.
    pub fn give_up(&mut self, alloc: Global) {
        self.held = BTreeMap::new(alloc);
    }
}
