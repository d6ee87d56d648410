// Why the benchmark did not end.

ghost use Rattle.std.specs.Prelude.{◌≤◌};

use std::alloc::AllocError;
use thiserror::Error;

/// Why the benchmark did not end.
#[derive(Debug, Drop, Error)]
pub enum BenchError {
    /// The words are not of the form that is wanted.
    #[error("usage: archive_bench [DIR PUTS [SECTIONS | look ITEMS]] (archive_bench --help says more)")]
    Usage,
    /// The archive has a record before the first put.
    #[error("the archive is not empty")]
    NotEmpty,
    /// The archive failed.
    #[error("the archive failed: {0}")]
    Archive(#[from] archives::Error),
    /// There was no memory.
    #[error("out of memory")]
    Memory(#[from(alloc)] AllocError),
    /// Standard output could not be written, or the words could not be read.
    #[error("{0}")]
    Io(#[from] std::io::Error),
}

impl BenchError {
    /// The status of the process.
    pub fn status(&self) -> u8
        ensures { 1 ≤ result }
    {
        match self {
            BenchError::Usage => 1,
            BenchError::NotEmpty => 2,
            BenchError::Io(_) => 4,
            BenchError::Archive(_) => 5,
            BenchError::Memory(_) => 6,
        }
    }
}
