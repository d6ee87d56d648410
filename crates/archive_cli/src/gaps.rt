// Files that stand where a standard stream is closed.
//
// The system gives a file the least number that is free. Where the program was called with a standard stream closed, a file
// of the archive would get its number, and the replies would go into that file.

use std::fs::{self, File};
use std::io;
use std::os::fd::AsRawFd;

// The standard streams have the numbers from 0 to this one.
const LAST_STANDARD: i32 = 2;

// Each program may open it, and nothing is read from it or written to it as from a stream. So the stream fails, as a closed one.
const STOPPER: &str = "/";

/// Opens a file at the number of each standard stream that is closed. As long as these are open, no other file gets such a number.
pub fn stop_gaps(rt: &HostRuntime) -> io::Result<Vec<File>> {
    let mut stoppers = Vec::new(rt.alloc());
    for _ in 0..=LAST_STANDARD {
        let file = fs::open(rt, STOPPER)?;
        if file.as_raw_fd() > LAST_STANDARD {
            break;
        }
        stoppers.push(file)?;
    }
    Ok(stoppers)
}
