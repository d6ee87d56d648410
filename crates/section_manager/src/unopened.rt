// What is known of a section that is not held, though its blob may be there.

/// Why the blob of a section that is not held may be there.
#[derive(Clone, Copy)]
pub enum Unopened {
    /// The section is above the ceiling, or its buffer was taken out.
    Section,
    /// A call that failed may have made the blob.
    Leftover,
}
