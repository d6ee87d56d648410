//! A cache of values by index, that outlives crashes, and whose prefix can be pruned.
//!
//! [`Cache`] keeps the values. Its errors are those of the journal below it.
//!
//! ```rust
//! let cache = Cache::<Bytes, Sha256Seal>::init(alloc, &mut dev, &cfg)?;
//! let cache = cache.put(&mut dev, 5, value)?;     // in the buffer of section 4, of four indices
//! let cache = cache.sync(&mut dev)?;              // from here on each crash leaves it
//! cache.get(&mut dev, 5)?                         // Some(value)
//! let cache = cache.prune(&mut dev, 8)?;          // 5 is gone, and nothing is stored below 8
//! ```
#![tactic(auto)]

mod cache;
mod config;
mod held;
mod laws;
pub mod plain;
mod record;

pub use cache::Cache;
pub use config::Config;
pub use laws::{crash_law, destroy_law, frame_law, spared_law};
