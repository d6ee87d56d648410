// Commands on several records of an index.
ghost use Rattle.std.specs.Prelude.{◌≡◌};
ghost use Rattle.archives.specs.Changes.{outcome};
ghost use Rattle.archives.specs.Commands.{All, HasAt, Multi, MultiStart, MultiSync};
ghost use Rattle.archives.specs.Machine.{replied};
ghost use Rattle.archives.specs.declared.commands.Reply.TheVariants.{Values as AllValues};
ghost use Rattle.archive_service.specs.StoreCalls.{Answers, MayUse};
ghost use Rattle.archive_service.specs.declared.store.openable.Openable.TheVariants.{Open};

use super::super::{Openable, Store};
use super::{NewItem, done, started, told};
use archives::prunable::{Archive, Config};
use archives::{Error, MultiArchive as _, Reply, Translator, Values};
use blob_device::Device;
use value_codec::{Codec, Key, Seal};

pub(super) fn put<T: Translator, K: Key, V: Codec, S: Seal, D: Device>(
    archive: Archive<T, K, V, S>,
    dev: &mut D,
    _cfg: &Config<T, V::Cfg>,
    put: NewItem<'_, K, V>,
) -> Result<(Openable<Archive<T, K, V, S>>, Reply<V>), Error>
    requires usable { MayUse (⟦<Openable<Archive<T, K, V, S>> as Store>⟧.means _cfg.now)
        D.Device (Open archive) dev.old }
    requires value { (⟦<Openable<Archive<T, K, V, S>> as Store>⟧.means _cfg.now).Accepts put.2.now }
    ensures { Answers (⟦<Openable<Archive<T, K, V, S>> as Store>⟧.means _cfg.now)
        D.Device (Open archive)
        (Multi put.entry.0 (K.key_bytes put.entry.1) (V.spelling put.entry.2.now))
        (outcome (λ r. (r.0, replied V.spelling r.1)) result) dev.old dev.new }
{
    archive.crash_laws(dev);
    done(archive.put_multi(dev, put.0, put.1, put.2))
}

pub(super) fn put_sync<T: Translator, K: Key, V: Codec, S: Seal, D: Device>(
    archive: Archive<T, K, V, S>,
    dev: &mut D,
    _cfg: &Config<T, V::Cfg>,
    put: NewItem<'_, K, V>,
) -> Result<(Openable<Archive<T, K, V, S>>, Reply<V>), Error>
    requires usable { MayUse (⟦<Openable<Archive<T, K, V, S>> as Store>⟧.means _cfg.now)
        D.Device (Open archive) dev.old }
    requires value { (⟦<Openable<Archive<T, K, V, S>> as Store>⟧.means _cfg.now).Accepts put.2.now }
    ensures { Answers (⟦<Openable<Archive<T, K, V, S>> as Store>⟧.means _cfg.now)
        D.Device (Open archive)
        (MultiSync put.entry.0 (K.key_bytes put.entry.1) (V.spelling put.entry.2.now))
        (outcome (λ r. (r.0, replied V.spelling r.1)) result) dev.old dev.new }
{
    archive.crash_laws(dev);
    done(archive.put_multi_sync(dev, put.0, put.1, put.2))
}

pub(super) fn put_start<T: Translator, K: Key, V: Codec, S: Seal, D: Device>(
    archive: Archive<T, K, V, S>,
    dev: &mut D,
    _cfg: &Config<T, V::Cfg>,
    put: NewItem<'_, K, V>,
) -> Result<(Openable<Archive<T, K, V, S>>, Reply<V>), Error>
    requires usable { MayUse (⟦<Openable<Archive<T, K, V, S>> as Store>⟧.means _cfg.now)
        D.Device (Open archive) dev.old }
    requires value { (⟦<Openable<Archive<T, K, V, S>> as Store>⟧.means _cfg.now).Accepts put.2.now }
    ensures { Answers (⟦<Openable<Archive<T, K, V, S>> as Store>⟧.means _cfg.now)
        D.Device (Open archive)
        (MultiStart put.entry.0 (K.key_bytes put.entry.1) (V.spelling put.entry.2.now))
        (outcome (λ r. (r.0, replied V.spelling r.1)) result) dev.old dev.new }
{
    archive.crash_laws(dev);
    started(archive.put_multi_start_sync(dev, put.0, put.1, put.2))
}

// All values at the index.
pub(super) fn all<T: Translator, K: Key, V: Codec, S: Seal, D: Device>(
    archive: Archive<T, K, V, S>,
    dev: &mut D,
    _cfg: &Config<T, V::Cfg>,
    index: u64,
) -> Result<(Openable<Archive<T, K, V, S>>, Reply<V>), Error>
    requires usable { MayUse (⟦<Openable<Archive<T, K, V, S>> as Store>⟧.means _cfg.now)
        D.Device (Open archive) dev.old }
    ensures { Answers (⟦<Openable<Archive<T, K, V, S>> as Store>⟧.means _cfg.now)
        D.Device (Open archive) (All index)
        (outcome (λ r. (r.0, replied V.spelling r.1)) result) dev.old dev.new }
{
    archive.crash_laws(dev);
    let answer = archive.get_all(dev, index);
    listed(archive, answer)
}

// Whether one record has both the index and the key.
pub(super) fn has_at<T: Translator, K: Key, V: Codec, S: Seal, D: Device>(
    archive: Archive<T, K, V, S>,
    dev: &mut D,
    _cfg: &Config<T, V::Cfg>,
    index: u64,
    key: &K,
) -> Result<(Openable<Archive<T, K, V, S>>, Reply<V>), Error>
    requires usable { MayUse (⟦<Openable<Archive<T, K, V, S>> as Store>⟧.means _cfg.now)
        D.Device (Open archive) dev.old }
    ensures { Answers (⟦<Openable<Archive<T, K, V, S>> as Store>⟧.means _cfg.now)
        D.Device (Open archive) (HasAt index (K.key_bytes key.now))
        (outcome (λ r. (r.0, replied V.spelling r.1)) result) dev.old dev.new }
{
    archive.crash_laws(dev);
    let answer = archive.has_at(dev, index, key);
    told(archive, answer)
}

fn listed<A: Drop, V: Drop>(
    archive: A,
    values: Result<Option<Values<V>>, Error>,
) -> Result<(Openable<A>, Reply<V>), Error>
    ensures { result ≡ outcome (λ vs. (Open archive, AllValues vs)) values }
{
    Ok((Openable::Open(archive), Reply::Values(values?)))
}
