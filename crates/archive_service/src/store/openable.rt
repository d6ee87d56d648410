// A store that can be destroyed, and opened again.

/// An archive that is open, or that was destroyed and not opened since.
#[derive(Drop)]
pub enum Openable<A> {
    /// It is open.
    Open(A),
    /// It was destroyed, with this floor. It has no blobs.
    Closed(u64),
}
