//! Sections of a partition, each kept in a buffer over a blob of its own, with sealed pages or without.
//!
//! [`Manager`] opens, makes, settles, cuts and removes them. What a section is kept in is a [`SectionBuffer`],
//! which a [`BufferFactory`] makes.
//!
//! ```rust
//! let mut manager = Manager::init(alloc, &mut dev, cfg)?;      // cfg.factory makes the buffers
//! let buffer = manager.take(&mut dev, 4)?;                     // made where it is not held
//! let (buffer, at) = buffer.append(&mut dev, b"abc")?;
//! manager.put(4, buffer)?;
//! let manager = manager.sync(&mut dev, &[4])?;
//! let (manager, was) = manager.prune(&mut dev, 8)?;            // removes section 4
//! ```
#![tactic(auto)]

mod buffer;
mod held;
pub mod journal;
mod manager;
mod sealed;
mod unopened;
mod unsealed;

pub use buffer::{BufferFactory, SectionBuffer};
pub use held::SectionIter;
pub use manager::{Found, Manager, ManagerConfig};
pub use sealed::AppendFactory;
pub use unopened::Unopened;
pub use unsealed::WriteFactory;
