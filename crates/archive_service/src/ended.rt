// How a call of the program ended.
ghost use Rattle.archive_service.specs.Ended.{EndsUnserved};

use crate::Marks;
use archives::Error;
use std::alloc::Global;

/// How a call of the program ended.
#[derive(Clone, Copy, Debug, PartialEq, Eq)]
pub enum Status {
    /// All commands replied, and all was written.
    Done = 0,
    /// The words are not of the stated form.
    Usage = 1,
    /// The input is no script.
    BadScript = 2,
    /// The source failed.
    ReadFault = 3,
    /// The sink failed.
    WriteFault = 4,
    /// The store failed, or refused a command.
    StoreError = 5,
    /// There was no memory.
    NoMemory = 6,
    /// The input has more bytes than an input may have.
    TooLong = 7,
}

/// What a call of the program hands back.
#[derive(Debug, Drop)]
pub struct Ended {
    /// The status of the process: the number of a [`Status`].
    pub status: u8,
    /// When the commands began that were begun, by the device's number of calls.
    pub marks: Marks,
    /// The error with which the commands ended, other than want of memory.
    pub error: Option<Error>,
}

impl Ended {
    /// The end with this status of a call that served no command.
    pub fn unserved(alloc: Global, status: Status) -> Ended
        ensures { EndsUnserved status result }
    {
        Ended {
            status: status as u8,
            marks: Marks::new(alloc),
            error: None,
        }
    }
}
