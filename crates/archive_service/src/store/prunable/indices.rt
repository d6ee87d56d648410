// Commands that ask for indices. They are answered by what is held, and the device is not touched.
ghost use Rattle.std.specs.Prelude.{◌≡◌, Err, IfOk, OnErr};
ghost use Rattle.archives.specs.Changes.{outcome};
ghost use Rattle.archives.specs.Commands.{First, Gap, Last, Missing, Ranges, RangesFrom};
ghost use Rattle.archives.specs.Machine.{replied};
ghost use Rattle.archives.specs.declared.commands.Reply.TheVariants as replies;
ghost use Rattle.archive_service.specs.StoreCalls.{Answers, MayUse};
ghost use Rattle.archive_service.specs.declared.store.openable.Openable.TheVariants.{Open};

use super::super::{Openable, Store};
use archives::prunable::{Archive, Config};
use archives::{Archive as _, Error, Pairs, Reply, Translator};
use blob_device::Device;
use ordinal_store::{Numbers, RangeIter};
use std::alloc::Global;
use value_codec::{Codec, Key, Seal};

// Where the run with the index ends, and where the next one begins.
pub(super) fn gap<T: Translator, K: Key, V: Codec, S: Seal, D: Device>(
    archive: Archive<T, K, V, S>,
    dev: &mut D,
    _cfg: &Config<T, V::Cfg>,
    index: u64,
) -> Result<(Openable<Archive<T, K, V, S>>, Reply<V>), Error>
    requires usable { MayUse (⟦<Openable<Archive<T, K, V, S>> as Store>⟧.means _cfg.now)
        D.Device (Open archive) dev.old }
    ensures { Answers (⟦<Openable<Archive<T, K, V, S>> as Store>⟧.means _cfg.now)
        D.Device (Open archive) (Gap index)
        (outcome (λ r. (r.0, replied V.spelling r.1)) result) dev.old dev.new }
{
    archive.crash_laws(dev);
    let (end, next) = archive.next_gap(index);
    Ok((Openable::Open(archive), Reply::Gap(end, next)))
}

// So many absent indices. No call is asked for none of them.
pub(super) fn missing<T: Translator, K: Key, V: Codec, S: Seal, D: Device>(
    archive: Archive<T, K, V, S>,
    alloc: Global,
    dev: &mut D,
    _cfg: &Config<T, V::Cfg>,
    wanted: (u64, u32),
) -> Result<(Openable<Archive<T, K, V, S>>, Reply<V>), Error>
    requires usable { MayUse (⟦<Openable<Archive<T, K, V, S>> as Store>⟧.means _cfg.now)
        D.Device (Open archive) dev.old }
    ensures { Answers (⟦<Openable<Archive<T, K, V, S>> as Store>⟧.means _cfg.now)
        D.Device (Open archive) (Missing wanted.0 wanted.1)
        (outcome (λ r. (r.0, replied V.spelling r.1)) result) dev.old dev.new }
{
    archive.crash_laws(dev);
    let (index, count) = wanted;
    if count == 0 {
        return listed(archive, Ok(Numbers::new(alloc)));
    }
    let missing = archive.missing_items(index, count as usize);
    listed(archive, missing)
}

// All runs of indices.
pub(super) fn ranges<T: Translator, K: Key, V: Codec, S: Seal, D: Device>(
    archive: Archive<T, K, V, S>,
    alloc: Global,
    dev: &mut D,
    _cfg: &Config<T, V::Cfg>,
) -> Result<(Openable<Archive<T, K, V, S>>, Reply<V>), Error>
    requires usable { MayUse (⟦<Openable<Archive<T, K, V, S>> as Store>⟧.means _cfg.now)
        D.Device (Open archive) dev.old }
    ensures { Answers (⟦<Openable<Archive<T, K, V, S>> as Store>⟧.means _cfg.now)
        D.Device (Open archive) Ranges
        (outcome (λ r. (r.0, replied V.spelling r.1)) result) dev.old dev.new }
{
    archive.crash_laws(dev);
    let runs = runs_of(alloc, archive.ranges());
    ranged(archive, runs)
}

// The runs of indices from here on.
pub(super) fn ranges_from<T: Translator, K: Key, V: Codec, S: Seal, D: Device>(
    archive: Archive<T, K, V, S>,
    alloc: Global,
    dev: &mut D,
    _cfg: &Config<T, V::Cfg>,
    index: u64,
) -> Result<(Openable<Archive<T, K, V, S>>, Reply<V>), Error>
    requires usable { MayUse (⟦<Openable<Archive<T, K, V, S>> as Store>⟧.means _cfg.now)
        D.Device (Open archive) dev.old }
    ensures { Answers (⟦<Openable<Archive<T, K, V, S>> as Store>⟧.means _cfg.now)
        D.Device (Open archive) (RangesFrom index)
        (outcome (λ r. (r.0, replied V.spelling r.1)) result) dev.old dev.new }
{
    archive.crash_laws(dev);
    let runs = runs_of(alloc, archive.ranges_from(index));
    ranged(archive, runs)
}

// The least index.
pub(super) fn first<T: Translator, K: Key, V: Codec, S: Seal, D: Device>(
    archive: Archive<T, K, V, S>,
    dev: &mut D,
    _cfg: &Config<T, V::Cfg>,
) -> Result<(Openable<Archive<T, K, V, S>>, Reply<V>), Error>
    requires usable { MayUse (⟦<Openable<Archive<T, K, V, S>> as Store>⟧.means _cfg.now)
        D.Device (Open archive) dev.old }
    ensures { Answers (⟦<Openable<Archive<T, K, V, S>> as Store>⟧.means _cfg.now)
        D.Device (Open archive) First
        (outcome (λ r. (r.0, replied V.spelling r.1)) result) dev.old dev.new }
{
    archive.crash_laws(dev);
    let index = archive.first_index();
    Ok((Openable::Open(archive), Reply::Index(index)))
}

// The greatest index.
pub(super) fn last<T: Translator, K: Key, V: Codec, S: Seal, D: Device>(
    archive: Archive<T, K, V, S>,
    dev: &mut D,
    _cfg: &Config<T, V::Cfg>,
) -> Result<(Openable<Archive<T, K, V, S>>, Reply<V>), Error>
    requires usable { MayUse (⟦<Openable<Archive<T, K, V, S>> as Store>⟧.means _cfg.now)
        D.Device (Open archive) dev.old }
    ensures { Answers (⟦<Openable<Archive<T, K, V, S>> as Store>⟧.means _cfg.now)
        D.Device (Open archive) Last
        (outcome (λ r. (r.0, replied V.spelling r.1)) result) dev.old dev.new }
{
    archive.crash_laws(dev);
    let index = archive.last_index();
    Ok((Openable::Open(archive), Reply::Index(index)))
}

// The runs that are left to give, as a list.
fn runs_of(alloc: Global, ranges: RangeIter<'_>) -> Result<Pairs, Error>
    ensures runs { IfOk result (λ pairs. pairs ≡ ranges.entry) }
    ensures memory { OnErr result (result ≡ Err Error.Mem) }
{
    Ok(Pairs::from_ranges(alloc, ranges)?)
}

// What was asked for indices answers: the archive, with the list.
fn listed<A: Drop, V>(
    archive: A,
    numbers: Result<Numbers, Error>,
) -> Result<(Openable<A>, Reply<V>), Error>
    ensures { result ≡ outcome (λ list. (Open archive, replies.Items list)) numbers }
{
    Ok((Openable::Open(archive), Reply::Items(numbers?)))
}

// What was asked for runs answers: the archive, with the runs.
fn ranged<A: Drop, V>(
    archive: A,
    runs: Result<Pairs, Error>,
) -> Result<(Openable<A>, Reply<V>), Error>
    ensures { result ≡ outcome (λ pairs. (Open archive, replies.Ranges pairs)) runs }
{
    Ok((Openable::Open(archive), Reply::Ranges(runs?)))
}
