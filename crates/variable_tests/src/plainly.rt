// Plain readings of bytes and of images.
use blob_device::Memory;
use scenario_runs::{Part, Said, Told, number, spelled};
use scenario_text::Step;
use segments::journal::Error;
use std::alloc::Global;
use value_codec::Sha256Seal;
use variable_journal::plain;

/// The items of the whole frames in these bytes, and what follows them: nothing, `cut` and how many
/// bytes, or `bad`.
pub fn frames(alloc: Global, step: &Step) -> Result<Said, Error> {
    let bytes = match step.bytes(alloc, 0)? {
        Some(bytes) => bytes,
        None => Vec::new(alloc),
    };
    let mut row = Vec::new(alloc);
    for item in &plain::items(alloc, bytes.as_slice())? {
        row.push(Part::Bytes(spelled(alloc, item.as_bytes())?))?;
    }
    let rest = plain::rest(bytes.as_slice());
    if plain::has_bad_length(bytes.as_slice()) {
        row.push(Part::Text("bad"))?;
    } else if !rest.is_empty() {
        row.push(Part::Text("cut"))?;
        row.push(Part::Number(rest.len() as u64))?;
    }
    Ok(Said::Row(row))
}

/// What an image keeps of these sections: the items of each, as a plain reading of its blob has them.
pub fn kept(alloc: Global, dev: &Memory, step: &Step, told: &Told) -> Result<Said, Error> {
    let image = dev.image(alloc)?;
    let page = u16::try_from(number(step, 1)).unwrap_or(16);
    let mut row = Vec::new(alloc);
    for section in told.numbers.as_slice().get(1..).unwrap_or(&[]) {
        let blob = image
            .blob(step.argument(0), section.to_be_bytes().as_slice())
            .unwrap_or(&[]);
        row.push(Part::Number(*section))?;
        for item in &plain::kept::<Sha256Seal>(alloc, page, blob)? {
            row.push(Part::Bytes(spelled(alloc, item.as_bytes())?))?;
        }
    }
    Ok(Said::Row(row))
}
