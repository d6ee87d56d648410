//! A journal of items of any length, by section and offset, over the journal of items of one byte of
//! `segments`.
//!
//! ```rust
//! let journal = Journal::<ByteValue, Sha256Seal>::init(alloc, &mut dev, &cfg)?;
//! let (journal, offset, size) = journal.append(&mut dev, 4, &item)?;   // its frame stands at the offset
//! let journal = journal.sync(&mut dev, &[4])?;
//! journal.get(&mut dev, 4, offset)?                                    // the item
//! ```
#![tactic(auto)]

mod byte;
mod items;
mod journal;
mod laws;
pub mod plain;

pub use items::Items;
pub use journal::{Config, Journal, Replay};
pub use laws::{call_laws, item_laws, opening_laws};
