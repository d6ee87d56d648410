// The numbers with which the program runs.
ghost use Rattle.std.specs.Prelude.{IsTrue, ◌↔◌};
ghost use Rattle.archive_service.specs.Settings.{AreForTables, AreSettings, IsPowerOfTwo, IsUsual};

use archives::prunable::Limits;

/// The numbers with which the program runs, beside its words.
#[derive(Clone, Copy, Debug, PartialEq, Eq)]
pub struct Settings {
    /// The data bytes of a page.
    pub page_size: u16,
    /// How many full pages are held in memory.
    pub cache_pages: u32,
    /// From how many bytes on a section's buffer flushes them.
    pub write_buffer: usize,
    /// How many bytes an opening reads at once, about.
    pub replay_buffer: usize,
    /// The most bytes of a value: 16 to 65,536.
    pub max_value: u32,
    /// How much may be kept.
    pub limits: Limits,
    /// How many slots a new hash table has: a power of two.
    pub table_initial_size: u32,
    /// From how many entries on a slot counts towards the next doubling: 1 to 254.
    pub table_resize_frequency: u8,
    /// How many slots are moved at once while the table grows.
    pub table_resize_chunk_size: u32,
    /// From how many bytes of values on the next section is begun.
    pub value_target_size: u64,
}

impl Settings {
    /// The settings with which `main` runs. They are valid.
    pub const DEFAULT: Settings = Settings {
        page_size: 1024,
        cache_pages: 16,
        write_buffer: 1024,
        replay_buffer: 1024,
        max_value: 65_536,
        limits: Limits {
            sections: 1 << 24,
            per_section: 1 << 40,
        },
        table_initial_size: 256,
        table_resize_frequency: 4,
        table_resize_chunk_size: 64,
        value_target_size: 1_048_576,
    };

    /// [`DEFAULT`](Settings::DEFAULT) has the numbers with which the program says that it runs, and they are valid. It does nothing.
    pub fn default_laws()
        ensures { IsUsual Self.DEFAULT }
    {}

    /// Whether each number is in its range. It takes no memory.
    pub fn is_valid(&self) -> bool
        ensures { IsTrue result ↔ AreSettings self.now }
    {
        self.page_size >= 1
            && self.write_buffer >= 1
            && self.replay_buffer >= 1
            && (16..=65_536).contains(&self.max_value)
            && self.limits.is_valid()
            && self.has_tables()
    }

    // Whether the numbers of the hash table are in their ranges.
    fn has_tables(&self) -> bool
        ensures { IsTrue result ↔ AreForTables self.now }
    {
        is_power_of_two(self.table_initial_size)
            && (1..=254).contains(&self.table_resize_frequency)
            && self.table_resize_chunk_size >= 1
            && self.value_target_size >= 1
    }
}

fn is_power_of_two(n: u32) -> bool
    ensures { IsTrue result ↔ IsPowerOfTwo n }
{
    n.count_ones() == 1
}
