// A plain reading of the blobs of a cache.
use blob_device::Memory;
use cache_store::plain::kept;
use scenario_runs::{Part, Said, Told, number, spelled};
use scenario_text::Step;
use segments::journal::Error;
use std::alloc::Global;
use value_codec::Sha256Seal;

/// What an image keeps of these sections of a cache: the entries of each, as a plain reading of its
/// blob has them.
pub fn entries(alloc: Global, dev: &Memory, step: &Step, told: &Told) -> Result<Said, Error> {
    let image = dev.image(alloc)?;
    let page = u16::try_from(number(step, 1)).unwrap_or(16);
    let mut row = Vec::new(alloc);
    for section in told.numbers.as_slice().get(1..).unwrap_or(&[]) {
        let blob = image
            .blob(step.argument(0), section.to_be_bytes().as_slice())
            .unwrap_or(&[]);
        for found in &kept::<Sha256Seal>(alloc, page, blob)? {
            row.push(Part::Entry(found.index(), spelled(alloc, found.value())?))?;
        }
    }
    Ok(Said::Row(row))
}
