//! Stores of values by index and key: the archive whose first sections can be pruned; what an archive is asked, what it replies, and the machine of
//! records that says which replies are right.
//!
//! `specs/Machine.antt` has the machine, with all commands of an archive: a state, and a step for each command and reply.
//! `plain` runs them, on one list.
#![tactic(auto)]

mod archive;
mod commands;
mod error;
mod lists;
pub mod plain;
pub mod prunable;
mod translator;

pub use archive::{Archive, Identifier, MultiArchive};
pub use commands::{Command, Reply};
pub use error::Error;
pub use lists::{Entries, Pairs, Values};
pub use translator::{FourCap, Translator};
