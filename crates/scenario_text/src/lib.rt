//! Tests as data: files of scenarios, what their steps must say, and a report of what went wrong.
//!
//! A driver is a program over one library. It gives [`run_files`] a [`Driver`], and its arguments name the files. A file reads so:
//!
//! ```text
//! # A comment; empty lines are passed over.
//! == a torn slot keeps what was synced
//! open 16 1024
//! append 1 10 11 12     => 0 1 2
//! get 1 3               => error item 3 out of range
//! ```
//!
//! A line that begins with `==` begins a scenario, and names it by the sentence that it shows. Each further line is a step: words, and
//! behind `=>` what it must say. Without `=>` it must say `ok`. The program prints a line for each scenario, and ends with status 1
//! where one failed.
#![tactic(auto)]

mod files;
mod report;
mod scenario;

pub use files::{Driver, run_files};
pub use report::Report;
pub use scenario::{ReadError, Scenario, Step, scenarios_in};
