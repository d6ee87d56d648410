//! What is held in memory of records that stand on a device: by section, index and word of the key, where they stand.
//!
//! # Form
//!
//! Records stand in sections, each of them named by its first index. A section with records has a slot, a small
//! number. A record's handle is the slot of its section and its position there.
//!
//! ```text
//! section 4                                      words
//! +------+---------------------+---------+       +-----------+------------------+
//! | slot | words by position   | w w v   |       | w         | (slot,0) (slot,1)|
//! |      | first by offset     | 0 - 1   |       | v         | (slot,2)         |
//! |      | further by offset   | 0: 2    |       +-----------+------------------+
//! +------+---------------------+---------+
//! ```
//!
//! Here the section has records with the indices 4, 6 and again 4. No key is held, and no index: contracts alone
//! know them.
#![tactic(auto)]

mod handle;
pub mod plain;
mod positions;
mod slots;
mod tables;
mod words;

pub use handle::Handle;
pub use tables::Tables;
