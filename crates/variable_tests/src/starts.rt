// Where a replay may begin.
ghost use Rattle.std.specs.Prelude.{IfOk, IsTrue, string_bytes};
ghost use Rattle.variable_tests.specs.Stores.{Begins, IsKeptAs, IsOpen, MayBegin};
ghost use Rattle.variable_tests.specs.declared.store.Store.{Store};

use crate::journals::Frames;
use blob_device::Memory;
use sealed_pages::plain::sealed_prefix;
use segments::journal::Error;
use std::alloc::Global;
use value_codec::Sha256Seal;
use variable_journal::{Config, plain};

/// Whether a replay may begin at an offset of a section of a journal that was just opened: items that
/// are kept of it end there, or nothing of it is kept so far.
pub fn may_begin(
    alloc: Global,
    journal: &Frames,
    dev: &Memory,
    cfg: &Config<u32>,
    start: (u64, u64),
) -> Result<bool, Error>
    requires over { IsOpen dev.now (Store.Frames journal.now) }
    requires kept { IsKeptAs (string_bytes cfg.now.partition) cfg.now.pages journal.now }
    ensures { IfOk result (λ r. IsTrue r → MayBegin dev.now journal.now start.0 start.1) }
{
    let (section, offset) = start;
    if journal.is_recovered(section) {
        return Ok(false);
    }
    let image = dev.image(alloc)?;
    let Some(blob) = image.blob(cfg.partition.as_str(), section.to_be_bytes().as_slice()) else {
        return Ok(false);
    };
    let kept = sealed_prefix::<Sha256Seal>(alloc, cfg.pages.page_size, blob)?;
    Ok(is_start(kept.as_slice(), offset))
}

// Whether the frames of these bytes end at an offset, or the bytes do before it.
fn is_start(bytes: &[u8], offset: u64) -> bool
    ensures { IsTrue result → Begins bytes.now offset }
{
    match bytes.get(..offset as usize) {
        // A frame that is cut short would be left.
        Some(before) => plain::rest(before).is_empty(),
        None => true,
    }
}
