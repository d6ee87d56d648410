// An opened blob of pages, as one value: what reads and writes its pages is given it.

/// Which blob it is, how it is cut into pages, and where it ends.
#[derive(Clone, Copy)]
pub struct OpenBlob<'a> {
    /// Its partition.
    pub partition: &'a str,
    /// Its name.
    pub name: &'a [u8],
    /// The data bytes of a page.
    pub page_size: u16,
    /// Where it ends, in bytes of the blob, slots counted. The opened list has it (`IsOpenAt`).
    pub end: u64,
}
