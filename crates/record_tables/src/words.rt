// The handles of records by the words of their keys.
ghost use Rattle.std.specs.HashMap.{get};
ghost use Rattle.std.specs.Prelude.{◌≡◌, None, false, OnOk};
ghost use Rattle.record_tables.specs.Words.{AddsHandle, HasWordRoom, RemovesSlot, handles_of};

use crate::Handle;
use smallvec::SmallVec;
use std::alloc::{AllocError, Global};
use std::collections::HashMap;
use std::hash::Hash;

/// Of each word the handles of its records, in no order. One alone takes no memory of its own.
#[derive(Drop)]
pub(crate) struct Words<W: Copy + Eq + Hash> {
    // for the lists of handles
    alloc: Global,
    // by word: one without a handle has no list, as each removal sees to, but one for which room was made
    handles: HashMap<W, SmallVec<Handle, 1>>,
}

impl<W: Copy + Eq + Hash> Words<W> {
    /// No record has a word. It takes no memory.
    pub(crate) fn new(alloc: Global) -> Words<W>
        ensures { (w : W) → get W.eq result.handles w ≡ None }
    {
        Words {
            alloc,
            handles: HashMap::new(alloc),
        }
    }

    /// The handles of the word.
    pub(crate) fn get(&self, word: &W) -> &[Handle]
        ensures { result.now ≡ handles_of W.eq self.now word.now }
    {
        match self.handles.get(word) {
            Some(handles) => handles.as_slice(),
            None => &[],
        }
    }

    /// Makes room for one handle more of the word. Then adding it takes no memory.
    pub(crate) fn reserve(&mut self, word: W) -> Result<(), AllocError>
        ensures same { (w : W) → handles_of W.eq self.new w ≡ handles_of W.eq self.old w }
        ensures others { (w : W) → W.eq word w ≡ false
            → get W.eq self.new.handles w ≡ get W.eq self.old.handles w }
        ensures room { OnOk result (HasWordRoom W.eq self.new word) }
    {
        let handles = self
            .handles
            .entry(word)?
            .or_insert(SmallVec::new(self.alloc));
        handles.reserve(1)
    }

    /// Adds a handle of the word, for which there is room.
    pub(crate) fn add(&mut self, word: &W, handle: Handle)
        requires { HasWordRoom W.eq self.old word.now }
        ensures { AddsHandle W.eq word.now handle self.old self.new }
    {
        self.handles.get_mut(word).unwrap().push_reserved(handle);
    }

    /// Removes all handles of the word that have the slot. It takes no memory.
    pub(crate) fn remove(&mut self, word: &W, slot: u32)
        ensures { RemovesSlot W.eq (W.eq word.now) slot self.old self.new }
    {
        let Some(handles) = self.handles.get_mut(word) else {
            return;
        };
        handles.retain(|handle| handle.slot() != slot);
        if !handles.is_empty() {
            return;
        }
        self.handles.remove(word);
    }
}
