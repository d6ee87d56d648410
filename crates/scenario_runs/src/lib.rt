//! Steps over a device in memory, what they say, and whole runs that fail at each call of the device.
//!
//! A driver is a program over one library. What it holds open is an [`Opened`], and [`carry_out`] makes
//! the steps of a scenario over it. These steps and words are the same for all such drivers:
//!
//! Numbers are decimal; bytes are hexadecimal, and `-` is none. `COUNT*BYTE` is an item that has a byte
//! so often, and an item of 32 or more equal bytes is said so too. A blob has a partition and a name: a
//! number is a section, and anything else a text.
//!
//! The device, after each of which nothing is open: `blob PARTITION NAME BYTES`, `drop PARTITION
//! NAME`, `damage PARTITION NAME FROM TO BYTE`, `crash settled`, `crash as-read`, `crash mixed BITS`,
//! `fail N` and `fuse N`. What it says: `calls`, `faults`, `length PARTITION SECTION ..` and `bytes
//! PARTITION SECTION ..`.
//!
//! A step may say any of several answers, with ` | ` between them. A whole run: `each-call-stops`
//! makes the steps after it again and again, on what the device has then, with all calls of the
//! device failing from call 0 on, from call 1 on, and so on until no call is missed; so many runs
//! were stopped. `each-call-fails` lets one call fail alone. A run ends with the first step that the
//! device stops. Then each crash is taken, and the steps after `after-each-crash` are made. There
//! `what is left` stands for the answers of the last step `leaves` that the run came to. Another
//! whole run may follow: it is made on what one crash of each stop left, another one each time.
#![tactic(auto)]

mod disk;
mod opened;
mod runs;
mod said;
mod words;

pub use opened::Opened;
pub use runs::carry_out;
pub use said::{Part, Said, Sequence, WRONG, spelled};
pub use words::{Told, most, number, pages, value};
