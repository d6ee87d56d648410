// The steps that mend a section when it is opened, each of a few calls on one blob.
ghost use Rattle.std.specs.Prelude.{◌≡◌, ◌+◌, ◌*◌, ◌/◌, ◌≤◌, ◌<◌, ◌^◌, length, replicate};
ghost use Rattle.sealed_pages.specs.unsealed.Writing.{blob_key, shown, size_of};
ghost use Rattle.ordinal_store.specs.Adopting.{IsReady};
ghost use Rattle.ordinal_store.specs.Mending.{Clearing, IsClearable, IsCleared, IsCut, IsInLeft, IsInMarked, IsMade, Mending, is_marked, whole};
ghost use Rattle.ordinal_store.specs.Stores.{sight};

use crate::BitMap;
use crate::ordinal::Error;
use blob_device::{Device, RError};
use sealed_pages::WriteBlob;
use std::alloc::Global;

// Whether the slot at a position is marked.
fn is_marked(bits: &BitMap, position: u64) -> bool
    ensures { result ≡ is_marked bits.now position }
{
    position < bits.len() && bits.get(position)
}

// Writes zeros over a slot, unless it is marked, by at most two writes of the device.
fn clear_one<D: Device>(
    dev: &mut D,
    buffer: WriteBlob,
    bits: &BitMap,
    position: u64,
    zeros: &[u8],
) -> Result<WriteBlob, RError>
    requires clearable { IsClearable D.Tells (length zeros.now) bits.now
        (sight D.Device dev.old) buffer }
    requires zeros { zeros.now ≡ replicate (length zeros.now) 0 }
    requires room { position * length zeros.now + length zeros.now ≤ size_of (shown buffer) }
    requires fits { position * length zeros.now + length zeros.now < 2 ^ 64 }
    ensures { Clearing D.Tells (length zeros.now) bits.now position (position + 1) (shown buffer) result
        (sight D.Device dev.old) (sight D.Device dev.new) }
{
    if is_marked(bits, position) {
        return Ok(buffer);
    }
    // Over this slot alone: those beside it may be marked, and stay settled.
    buffer.write_at(dev, position * zeros.len() as u64, zeros)
}

// Writes zeros over each slot that is not marked.
fn clear_unmarked<D: Device>(
    dev: &mut D,
    buffer: WriteBlob,
    bits: &BitMap,
    zeros: &[u8],
) -> Result<WriteBlob, RError>
    requires clearable { IsClearable D.Tells (length zeros.now) bits.now
        (sight D.Device dev.old) buffer }
    requires some { 1 ≤ length zeros.now }
    requires zeros { zeros.now ≡ replicate (length zeros.now) 0 }
    ensures { Clearing D.Tells (length zeros.now) bits.now 0 (size_of (shown buffer) / length zeros.now)
        (shown buffer) result (sight D.Device dev.old) (sight D.Device dev.new) }
{
    let count = buffer.size() / zeros.len() as u64;
    let mut buffer = buffer;
    for position in 0..count {
        buffer = clear_one(dev, buffer, bits, position, zeros)?;
    }
    Ok(buffer)
}

// Cuts a section to whole slots, by at most two calls of the device.
fn cut_to_slots<D: Device>(dev: &mut D, buffer: WriteBlob, size: u64) -> Result<WriteBlob, Error>
    requires some { 1 ≤ size }
    requires ready { IsReady D.Tells (blob_key (shown buffer)) buffer.capacity
        (sight D.Device dev.old) buffer }
    ensures { Mending D.Tells (blob_key (shown buffer)) buffer.capacity
        (λ i. i < whole size (size_of (shown buffer))) (whole size (size_of (shown buffer))) (IsCut size)
        buffer result (sight D.Device dev.old) (sight D.Device dev.new) }
{
    let len = buffer.size() / size * size;
    // First, and settled at once: what stands behind the last whole slot is part of no slot.
    Ok(buffer.truncate(dev, len)?)
}

// Clears the slots that are not marked, and settles the section.
fn cleared<D: Device>(
    alloc: Global,
    dev: &mut D,
    buffer: WriteBlob,
    bits: &BitMap,
    size: usize,
) -> Result<WriteBlob, Error>
    requires some { 1 ≤ size }
    requires ready { IsReady D.Tells (blob_key (shown buffer)) buffer.capacity
        (sight D.Device dev.old) buffer }
    ensures { Mending D.Tells (blob_key (shown buffer)) buffer.capacity (IsInMarked size bits.now)
        (size_of (shown buffer)) (IsCleared size bits.now 0 (size_of (shown buffer) / size)) buffer result
        (sight D.Device dev.old) (sight D.Device dev.new) }
{
    let zeros = vec![in alloc; 0; size]?;
    let buffer = clear_unmarked(dev, buffer, bits, zeros.as_slice())?;
    // Behind the last of them: no crash of a store that was opened brings a cleared slot back.
    Ok(buffer.sync(dev)?)
}

// Cuts a section to whole slots, and clears those that are not marked. Without marks each slot stays.
pub(crate) fn mended<D: Device>(
    alloc: Global,
    dev: &mut D,
    buffer: WriteBlob,
    marks: &Option<BitMap>,
    size: usize,
) -> Result<WriteBlob, Error>
    requires some { 1 ≤ size }
    requires ready { IsReady D.Tells (blob_key (shown buffer)) buffer.capacity
        (sight D.Device dev.old) buffer }
    ensures { Mending D.Tells (blob_key (shown buffer)) buffer.capacity
        (IsInLeft size marks.now (whole size (size_of (shown buffer))))
        (whole size (size_of (shown buffer))) (IsMade size marks.now) buffer result (sight D.Device dev.old)
        (sight D.Device dev.new) }
{
    let buffer = cut_to_slots(dev, buffer, size as u64)?;
    match marks {
        None => Ok(buffer),
        Some(bits) => cleared(alloc, dev, buffer, bits, size),
    }
}
