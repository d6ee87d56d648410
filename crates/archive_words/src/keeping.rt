// A source that keeps what was read from another one.
ghost use Rattle.std.specs.Prelude.{◌≡◌, ◌<◌, length};

use blob_device::{IoFault, Source};
use std::alloc::Global;

/// A source that passes each read on to another one, and keeps a copy of what came. It tells its bytes where that one does.
#[derive(Drop)]
pub struct Keeping<S> {
    // the source that is read, each piece once
    inner: S,
    // none once there was no memory for a piece
    kept: Option<Vec<u8>>,
}

impl<S> Keeping<S> {
    /// Keeps what is read from this source from now on. It takes no memory.
    pub fn new(alloc: Global, inner: S) -> Keeping<S>
        ensures { result.inner ≡ inner }
    {
        Keeping {
            inner,
            kept: Some(Vec::new(alloc)),
        }
    }

    /// What was read. None where there was no memory to keep it.
    pub fn into_kept(self) -> Option<Vec<u8>>
    where
        S: Drop,
    {
        self.kept
    }
}

// Puts a piece behind what is kept. Where there is no memory for it nothing is kept any more.
fn keep(kept: &mut Option<Vec<u8>>, piece: &[u8]) {
    let is_lost = match kept {
        Some(bytes) => bytes.extend_from_slice(piece).is_err(),
        None => false,
    };
    if is_lost {
        *kept = None;
    }
}

impl<S: Source> Source for Keeping<S> {
    ghost Tells = { S.Tells };

    ghost left = { λ k. S.left k.inner };

    ghost faults = { λ k. S.faults k.inner };

    fn read(&mut self, buf: &mut [u8]) -> Result<usize, IoFault> {
        match self.inner.read(buf) {
            Ok(count) => {
                keep(&mut self.kept, &buf[..count]);
                Ok(count)
            }
            Err(e) => Err(e),
        }
    }
}
