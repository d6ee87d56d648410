// Openings of which markers vouch for the first items of some sections.
ghost use Rattle.std.specs.Prelude.{IfOk};
ghost use Rattle.segments_tests.specs.Stores.{IsOpen};

use crate::disk::changed;
use crate::items::Low;
use crate::journals::config;
use crate::said::{Part, Said};
use crate::store::Store;
use crate::words::{number, pairs};
use blob_device::{Device, Memory};
use scenario_text::Step;
use segments::fixed::{Journal, Preflight};
use segments::journal::Error;
use std::alloc::Global;
use value_codec::Sha256Seal;

/// Opens a journal up to a section and checks markers. Says the last item below each, and whether
/// giving the journal was silent: it makes no call of the device.
pub fn open(alloc: Global, dev: &mut Memory, step: &Step) -> Result<(Store, Said), Error>
    ensures { IfOk result (λ r. IsOpen dev.new r.0) }
{
    let (page, buffer, held) = (number(step, 1), number(step, 2), number(step, 3));
    let cfg = config(alloc, step.argument(0), page, buffer, held)?;
    let ceiling = step.number(4).unwrap_or(u64::MAX);
    let markers = pairs(alloc, step, ceiling)?;
    let found = Journal::preflight_floors(alloc, dev, &cfg, &markers, ceiling)?;
    let mut row = bounds_of(alloc, &found);
    let calls = dev.calls();
    let journal = found.finish(dev)?;
    let way = if dev.calls() == calls {
        "silent"
    } else {
        "not silent"
    };
    let _ = row.push(Part::Text(way));
    Ok((Store::Items(journal), Said::Row(row)))
}

/// The sections with a boundary, each with the last item below it.
pub fn bounds_of(alloc: Global, found: &Preflight<Low, Sha256Seal>) -> Vec<Part> {
    let mut row = Vec::new(alloc);
    for (section, item) in found.boundaries() {
        let last = match item {
            Some(item) => Some(item.number),
            None => None,
        };
        let _ = row.push(Part::Bound(section, last));
    }
    row
}

/// Checks markers of sections up to 2 on this device, and gives the journal where the device is
/// another one by now: this one, damaged as the step says. Says how many calls of that one are
/// made, how many items section 1 has, and whether it takes an append.
pub fn elsewhere(alloc: Global, dev: &mut Memory, step: &Step) -> Result<Said, Error> {
    let cfg = config(alloc, step.argument(0), 16, 1024, 0)?;
    let markers = pairs(alloc, step, 2)?;
    let mut row = Vec::new(alloc);
    let mut other = changed(alloc, dev, step)?;
    let found: Preflight<Low, Sha256Seal> = Journal::preflight_floors(
        alloc, dev, &cfg, &markers, 2,
    )?;
    let journal = found.finish(&mut other)?;
    let _ = row.push(Part::Number(other.calls()));
    let _ = row.push(Part::Number(journal.section_len(1).unwrap_or(0)));
    let way = if journal.is_recovered(1) {
        "recovered"
    } else {
        "owing"
    };
    let _ = row.push(Part::Text(way));
    Ok(Said::Row(row))
}
