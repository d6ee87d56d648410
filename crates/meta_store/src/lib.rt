//! A map that is kept in two copies on a device: a crash leaves it as it was or as it was to be.
//!
//! It is for a few small facts that have to be right together.
//!
//! ```rust
//! let mut map = Metadata::<Key8, u64, Sha256Seal>::init(alloc, &mut dev, &cfg)?;
//! map.put(key, 3)?;               // staged in memory
//! let map = map.sync(&mut dev)?;  // written over the older or absent copy, and settled
//! map.get(&key)                   // Some(&3)
//! ```
#![tactic(auto)]

mod copy;
mod error;
mod keys;
mod metadata;
mod pair;

pub use copy::{CopyEntries, CopyText};
pub use error::{Error, Side};
pub use keys::KeyIter;
pub use metadata::{Config, Metadata};
