// What a driver holds open, and the steps over it.
ghost use Rattle.blob_device.specs.declared.memory.Memory.{Memory};

use crate::Said;
use crate::words::Told;
use blob_device::Memory;
use scenario_text::Step;
use segments::journal::Error;
use std::alloc::Global;

/// What may be open in a scenario: nothing, or a store over the device.
pub trait Opened: Drop {
    /// It may be used with the device.
    ghost is_open: { Memory → Self → Type 0 };

    /// Nothing is open.
    fn closed(dev: &Memory) -> Self
        ensures { is_open dev.now result };

    /// Carries out a step that is not of the device alone. The answer is what is open then, and what the
    /// step says.
    fn obey(
        self,
        alloc: Global,
        dev: &mut Memory,
        step: &Step,
        told: &Told,
    ) -> (Self, Result<Said, Error>)
        requires { is_open dev.old self }
        ensures { is_open dev.new result.0 };
}
