// Bytes over bytes: a write into a run, and a run over what was read.
ghost use Rattle.std.specs.Prelude.{◌≡◌, ◌+◌, ◌≤◌, ◌<◌, ◌^◌, length, IfOk, ℕ, List};
ghost use Rattle.blob_device.specs.Change.{written};
ghost use Rattle.sealed_pages.specs.Filled.{HasBytes};

use std::alloc::AllocError;

/// Writes bytes into a run, from a place in it or from its end on.
pub fn overwrite(run: &mut Vec<u8>, at: usize, bytes: &[u8]) -> Result<(), AllocError>
    requires { at ≤ length run.old.items }
    ensures { IfOk result (λ _. run.new.items ≡ written run.old.items at bytes.now) }
{
    let over = bytes.len().min(run.len() - at);
    let (old, new) = bytes.split_at(over);
    run[at..at + over].copy_from_slice(old);
    run.extend_from_slice(new)
}

/// Lays a run that begins at `at` over the bytes from `offset` on.
pub fn overlay(at: u64, run: &[u8], offset: u64, buf: &mut [u8])
    requires run { at + length run.now < 2 ^ 64 }
    requires buf { offset + length buf.old < 2 ^ 64 }
    ensures over { (content : List ℕ) → HasBytes content offset buf.old
        → HasBytes (written content at run.now) offset buf.new }
    ensures held { at ≤ offset → offset + length buf.old ≤ at + length run.now
        → (content : List ℕ) → HasBytes (written content at run.now) offset buf.new }
{
    let low = at.max(offset);
    let high = (at + run.len() as u64).min(offset + buf.len() as u64);
    if low >= high {
        return;
    }
    let part = &run[(low - at) as usize..(high - at) as usize];
    buf[(low - offset) as usize..(high - offset) as usize].copy_from_slice(part);
}
