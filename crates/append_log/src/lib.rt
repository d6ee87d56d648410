//! An append-only log in one blob of a device: the smallest program over the crash model of `blob_device`.
//!
//! [`append`] adds one record and [`append_all`] a list of them, each for good before the next. At every
//! moment, also inside the device's calls, each image that a crash may leave begins with all records that
//! were synced by then. It is no longer than one record more, and no other blob changes. `docs/CRASHES.md`
//! walks through it.
//!
//! ```rust
//! let mut dev = Memory::new(alloc);
//! append(&mut dev, "p", b"log", b"hi")?;        // open, write behind the end, sync
//! append(&mut dev, "p", b"log", b"yo")?;        // Ok: every crash from here on leaves hiyo
//! ```
#![tactic(auto)]

mod error;
mod log;

pub use error::LogError;
pub use log::{Appended, append, append_all};
