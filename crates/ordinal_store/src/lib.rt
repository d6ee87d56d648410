//! Values by index in slots of their own, with the sets of numbers and the lists of bits that they are told by.
#![tactic(auto)]

mod bit_map;
mod checking;
mod error;
mod filed;
pub mod laws;
mod lists;
mod mending;
mod names;
pub mod ordinal;
pub mod plain;
pub mod plain_section;
mod range_map;
mod slot;
mod store;

pub use bit_map::BitMap;
pub use error::RMapError;
pub use lists::Numbers;
pub use range_map::{RMap, RangeIter};
