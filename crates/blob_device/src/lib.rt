//! A disk of named blobs, with a model of what a crash at any moment may leave, and sources and sinks of
//! bytes.
//!
//! [`Device`] is the disk as a store sees it. [`Memory`] meets all of its contract, and [`FileDevice`] keeps
//! blobs as files. `docs/CRASHES.md` explains the model moment by moment.
//!
//! ```rust
//! let mut dev = Memory::new(alloc);
//! dev.open_blob("p", b"a")?;                               // makes the blob: every crash leaves it, empty
//! dev.write_at("p", b"a", 0, b"abc")?;                     // a crash leaves 0 to 3 bytes, and any bytes
//! let crash = dev.pick_crash(alloc, CrashChoice::Mixed(5))?;
//! // crash.blob("p", b"a") is 61 ff 63: byte 1 was lost
//! dev.sync("p", b"a")?;                                    // every crash from here on leaves abc
//! ```
#![tactic(auto)]

mod device;
mod error;
mod failing;
mod file_device;
mod flushing;
mod io_fault;
mod memory;
mod names;
mod runtime;
mod sink;
mod source;
mod table;

pub use device::Device;
pub use error::DevError;
pub use file_device::{FileDevice, HostFiles, PlacedFile};
pub use io_fault::IoFault;
pub use memory::{CrashChoice, Image, Memory};
pub use names::Names;
pub use runtime::{Handle, RError};
pub use sink::{MemSink, Sink, StdSink};
pub use source::{MemSource, Source, StdSource};
