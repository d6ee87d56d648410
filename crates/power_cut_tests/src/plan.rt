// Which calls on the files fail.

/// Which calls on the files fail.
#[derive(Clone, Copy, PartialEq, Eq)]
pub enum Plan {
    /// None.
    Whole,
    /// The call of this number. What a sync that fails should have written is lost.
    Fails(u64),
    /// The call of this number, which changes names or a length. It is carried out, and answered by an error.
    DoneAndFails(u64),
    /// All from this number on, since the power went or the process was stopped. They do nothing.
    Stops(u64),
}

impl Plan {
    /// Whether so many calls came to one that did not end well.
    pub fn is_reached(&self, calls: u64) -> bool {
        match self {
            Plan::Whole => false,
            Plan::Fails(number) | Plan::DoneAndFails(number) | Plan::Stops(number) => {
                *number < calls
            }
        }
    }

    /// Whether the call of this number does not end well.
    pub fn refuses(&self, nth: u64) -> bool {
        match self {
            Plan::Whole => false,
            Plan::Fails(number) | Plan::DoneAndFails(number) => nth == *number,
            Plan::Stops(number) => *number <= nth,
        }
    }
    /// What is tried of the call of this number, in words.
    pub fn word(&self) -> &'static str {
        match self {
            Plan::Whole => "begins",
            Plan::Fails(_) => "fails",
            Plan::DoneAndFails(_) => "is done and fails",
            Plan::Stops(_) => "stops",
        }
    }
}
