// Section buffers of both kinds, made and called through their bounds.
use crate::said::Said;
use crate::words::number;
use blob_device::{Device, Memory, RError};
use scenario_text::Step;
use sealed_pages::Pages;
use segments::journal::Error;
use segments::{AppendFactory, BufferFactory, SectionBuffer, WriteFactory};
use std::alloc::Global;
use value_codec::Sha256Seal;

/// Makes a buffer over the blob `x` of the partition `p`, of the kind and capacity that the step
/// names. Says the size that each of the syncs settles.
pub fn buffered(alloc: Global, dev: &mut Memory, step: &Step) -> Result<Said, Error> {
    let capacity = number(step, 1) as usize;
    let pages = Pages {
        page_size: 4,
        cache_pages: 0,
    };
    let size = match step.argument(0) {
        "write" => settled_size(alloc, dev, &WriteFactory { capacity })?,
        _ => settled_size(
            alloc,
            dev,
            &AppendFactory::<Sha256Seal>::new(capacity, pages),
        )?,
    };
    Ok(Said::Maybe(size))
}

// Opens the blob, and makes a buffer over it. The size that each of the syncs settles.
fn settled_size<F: BufferFactory, D: Device>(
    alloc: Global,
    dev: &mut D,
    factory: &F,
) -> Result<Option<u64>, RError> {
    let size = dev.open_blob("p", b"x")?;
    let buffer = factory.create(alloc, dev, "p", b"x", size)?;
    let buffer = buffer.sync(dev)?;
    let (buffer, handle) = buffer.start_sync(dev)?;
    handle.wait();
    let buffer = buffer.wait_for_sync(dev)?;
    if buffer.needs_sync() {
        return Ok(None);
    }
    Ok(Some(buffer.size()))
}
