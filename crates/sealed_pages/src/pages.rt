// How a sealed blob is cut into pages.
ghost use Rattle.std.specs.Prelude.{◌≡◌, ◌≤◌, ◌↔◌, IsTrue};

/// The data bytes of a page, and how many full pages are held in memory besides the tip.
#[derive(Clone, Copy, Debug, PartialEq, Eq)]
pub struct Pages {
    /// From 1 on.
    pub page_size: u16,
    /// The greatest number of full pages that are held: those that were flushed last.
    pub cache_pages: u32,
}

impl Pages {
    /// Whether a page has at least one byte.
    pub fn is_valid(&self) -> bool
        ensures { IsTrue result ↔ 1 ≤ self.now.page_size }
    {
        self.page_size >= 1
    }
}
