// How much a prunable archive may keep.
ghost use Rattle.std.specs.Prelude.{◌↔◌, IsTrue};
ghost use Rattle.archives.specs.Limits.{AreLimits};

/// How much an archive may keep. What would pass a limit is refused, by a put and by an opening.
#[derive(Clone, Copy, Debug, PartialEq, Eq)]
pub struct Limits {
    /// The greatest number of sections that keep a record: 1 to 2^24.
    pub sections: u32,
    /// The greatest number of records in a section: 1 to 2^40.
    pub per_section: u64,
}

impl Limits {
    /// Whether both limits are in their ranges. It takes no memory.
    pub fn is_valid(&self) -> bool
        ensures { IsTrue result ↔ AreLimits self.now }
    {
        (1..=1 << 24).contains(&self.sections) && (1..=1 << 40).contains(&self.per_section)
    }
}
