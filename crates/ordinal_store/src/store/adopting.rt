// Making the buffer of a section.
ghost use Rattle.std.specs.Prelude.{◌≡◌};
ghost use Rattle.ordinal_store.specs.Adopting.{Adopting};
ghost use Rattle.ordinal_store.specs.Slots.{section_key};
ghost use Rattle.ordinal_store.specs.Stores.{sight};

use crate::ordinal::Error;
use blob_device::Device;
use sealed_pages::WriteBlob;
use std::alloc::Global;

// A buffer over the section's blob, which is made where it is absent. It makes one call of the device.
pub(super) fn adopted<D: Device>(
    alloc: Global,
    dev: &mut D,
    partition: &str,
    section: u64,
    capacity: usize,
) -> Result<WriteBlob, Error>
    ensures { Adopting D.Tells (section_key partition.now section) capacity result
        (sight D.Device dev.old) (sight D.Device dev.new) }
{
    let bytes = section.to_be_bytes();
    let name = bytes.as_slice();
    // The blob is made and settled before a slot goes in, so that no crash leaves slots without their blob.
    let len = dev.open_blob(partition, name)?;
    Ok(WriteBlob::adopt(alloc, partition, name, len, capacity)?)
}
