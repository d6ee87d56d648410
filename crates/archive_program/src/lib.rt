//! The program `archive_cli` as functions: words, an input and an output in, and out come a status, marks and an error.
//!
//! [`run`] and [`run_with`] carry the theorem: what is written is the text of replies that the machine of records may give to
//! the script, and at every moment each crash leaves what it may. They take any device, any source and any sink, so that
//! `archive_cli` runs them on a folder between standard input and output, and `scenarios` on devices and streams that fail.
//!
//! `specs/Program.antt` has what a call promises (`Runs`), `specs/Words.antt` which words there are, `specs/Input.antt` and
//! `specs/Output.antt` what is read and written, and `specs/Config.antt` where the archive is kept.
#![tactic(auto)]

mod answer;
mod config;
mod input;
mod laws;
mod output;
mod program;
mod words;

pub use laws::{an_empty_device_may_be_served, run_laws};
pub use program::{run, run_with};
