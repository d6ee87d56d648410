//! Values in sealed frames, and records that name them, kept by section and place.
//!
//! [`Glob`] keeps values. [`Oversized`] is a tracked pair: a journal of records, a glob of their values, and
//! markers.
//!
//! ```rust
//! // Item is a Record: it names the place of its value
//! let mut replay = Oversized::<Item, ByteValue, Sha256Seal>::init_with_metadata(alloc, dev, &cfg, "meta")?;
//! while let Some(next) = replay.next(dev) {
//!     let (section, position, record) = next?;         // ascending, each once
//! }
//! let pair = replay.finish_tracked(dev)?;              // cuts what is not kept, and raises the markers
//! let (pair, position, offset, size) = pair.append(dev, 4, record, &value)?;
//! let pair = pair.sync_tracked(dev, &[4], &[])?;       // records, then values, then markers
//! pair.get_value(dev, 4, offset, size)?
//! ```
#![tactic(auto)]

pub mod glob;
mod laws;
pub mod oversized;
pub mod plain;
mod record;

pub use glob::{Glob, Recovery};
pub use oversized::Oversized;
pub use record::Record;
