// How long phases take.

use std::alloc::Global;
use std::time::{CpuClock, Duration};
use std::{fmt, io};

/// A phase that ended.
#[derive(Clone, Copy, Debug, PartialEq, Eq)]
struct Phase {
    // what it is called where it is printed
    name: &'static str,
    // how much of the processor's time it took
    time: Duration,
}

/// How much of the processor's time phases took, one behind the other.
#[derive(Drop)]
pub struct Watch<'c, C> {
    // what tells the time that the process used
    clock: &'c C,
    // that time when the last phase ended, or the watch was made
    last: Duration,
    // the phases that ended, in their order
    phases: Vec<Phase>,
}

impl<'c, C: CpuClock> Watch<'c, C> {
    /// No phase ended. The first begins now.
    pub fn new(alloc: Global, clock: &'c C) -> io::Result<Watch<'c, C>> {
        Ok(Watch {
            clock,
            last: clock.process_cpu_time()?,
            phases: Vec::new(alloc),
        })
    }

    /// A phase ends, and the next one begins.
    pub fn enter(&mut self, name: &'static str) -> io::Result<()> {
        let now = self.clock.process_cpu_time()?;
        let time = now.saturating_sub(self.last);
        self.phases.push(Phase { name, time })?;
        self.last = now;
        Ok(())
    }
}

impl<'c, C> fmt::Display for Watch<'c, C> {
    fn fmt<W: fmt::Write>(&self, f: &mut fmt::Formatter<W>) -> fmt::Result {
        for (at, phase) in self.phases.iter().enumerate() {
            if at > 0 {
                writeln!(f)?;
            }
            write!(f, "{}: {} us", phase.name, phase.time.as_micros())?;
        }
        Ok(())
    }
}
