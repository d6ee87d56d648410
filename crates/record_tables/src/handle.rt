// Where a record stands, in one number.
ghost use Rattle.std.specs.Prelude.{◌≡◌, ◌<◌, ◌^◌};
ghost use Rattle.record_tables.specs.Handles.{IsHandleOf, position_of, slot_of};

// How many positions a section has at most.
const POSITIONS: u64 = 1 << 40;

/// Where a record stands: the slot of its section in the upper 24 bits, and its position there in the lower 40.
#[derive(Clone, Copy, Debug, Default, PartialEq, Eq)]
pub struct Handle {
    // both numbers, as the type says
    bits: u64,
}

impl Handle {
    /// The handle of the record at this position of the section with this slot.
    pub fn new(slot: u32, position: u64) -> Handle
        requires slot { slot < 2 ^ 24 }
        requires position { position < 2 ^ 40 }
        ensures { IsHandleOf slot position result }
    {
        Handle {
            bits: u64::from(slot) * POSITIONS + position,
        }
    }

    /// The slot of the record's section.
    pub fn slot(self) -> u32
        ensures { result ≡ slot_of self }
    {
        (self.bits / POSITIONS) as u32
    }

    /// The record's position in its section.
    pub fn position(self) -> u64
        ensures { result ≡ position_of self }
    {
        self.bits % POSITIONS
    }
}
