// A write that is flushed before it counts as done.
ghost use Rattle.std.specs.Prelude.{◌≤◌, ◌<◌, ℕ, List, Option, length, take, IfSome, OnOk, ⊤};
ghost use Rattle.std.specs.Io.{WritesAtMost};
ghost use Rattle.std.specs.Io.KnownBytes.{Appends, Keeps, WriteAppends};

use std::io::{self, Write};

/// A writer, with a word for what a flush reaches, so that a contract can say that a flush came last.
pub trait Flushing {
    /// Whether all that was written has been flushed.
    ghost IsFlushed: { Self → Type 0 };

    /// The bytes that the writer holds, where they are known.
    ghost holds: { Self → Option (List ℕ) };

    /// Writes the first of these bytes, and answers how many.
    fn write_some(&mut self, bytes: &[u8]) -> io::Result<usize>
        ensures bound { WritesAtMost result bytes.now }
        ensures bytes { WriteAppends (holds self.old) (holds self.new) result bytes.now };

    /// Passes on what was written.
    fn pass_on(&mut self) -> io::Result<()>
        ensures flushed { OnOk result (IsFlushed self.new) }
        ensures bytes { Keeps (holds self.old) (holds self.new) };
}

// What a flush of std's writers reaches is outside the proofs.
impl<W: Write> Flushing for W {
    ghost IsFlushed = { λ _. ⊤ };

    ghost holds = { W.contents };

    fn write_some(&mut self, bytes: &[u8]) -> io::Result<usize> {
        self.write(bytes)
    }

    fn pass_on(&mut self) -> io::Result<()> {
        self.flush()
    }
}

/// Writes the first of these bytes and flushes. None where an error came or nothing was taken.
pub fn write_flushed<W: Flushing>(writer: &mut W, bytes: &[u8]) -> Option<usize>
    ensures bound { IfSome result (λ n. (0 < n) × (n ≤ length bytes.now)) }
    ensures written { IfSome result (λ n. Appends (W.holds writer.old) (W.holds writer.new) (take n bytes.now)) }
    ensures flushed { IfSome result (λ _. W.IsFlushed writer.new) }
{
    let count = writer.write_some(bytes).ok()?;
    // Now, since whoever reads the other end is to see what this call answers for.
    writer.pass_on().ok()?;
    if count == 0 { None } else { Some(count) }
}
