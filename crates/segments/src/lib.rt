//! A journal of items of one size, by section and position, over the sections of `section_manager`.
//!
//! [`fixed::Journal`] keeps the items. [`Manager`], the buffers and [`journal::Error`] are those of
//! `section_manager`, and are public here too.
//!
//! ```rust
//! let journal = Journal::<u64, Sha256Seal>::init(alloc, &mut dev, &cfg)?;
//! let mut replay = journal.replay(&mut dev, 0, 0, 4096)?;   // owed of each section that has bytes
//! while let Some(next) = replay.next(&mut dev) {
//!     let (section, position, item) = next?;                // ascending, each once
//! }
//! let journal = replay.finish()?;
//! let (journal, at) = journal.append(&mut dev, 4, &10)?;    // item p stands at byte p times the item's size
//! let journal = journal.sync(&mut dev, &[4])?;
//! journal.get(&mut dev, 4, at)?                             // 10
//! ```
#![tactic(auto)]

pub mod fixed;
mod items;

pub use items::Items;
pub use section_manager::{
    AppendFactory, BufferFactory, Found, Manager, ManagerConfig, SectionBuffer, SectionIter,
    WriteFactory, journal,
};
