// The prunable archive as a store that serves commands.
ghost use Rattle.std.specs.Prelude.{◌≡◌};
ghost use Rattle.archives.specs.Changes.{outcome};
ghost use Rattle.archives.specs.Commands.{Destroy, Prune, Put, PutStart, PutSync, Reopen, Start, Sync};
ghost use Rattle.archives.specs.Config.{IsValid};
ghost use Rattle.archives.specs.Finding.{get_command, has_command, wanted_of};
ghost use Rattle.archives.specs.Machine.{asked, replied};
ghost use Rattle.archives.specs.Shown.{means, setup_for};
ghost use Rattle.archives.specs.declared.archive.Identifier.TheVariants.{Index};
ghost use Rattle.archives.specs.declared.commands.Reply.TheVariants.{Done, Flag, Value};
ghost use Rattle.archive_service.specs.StoreCalls.{Answers, MayUse};
ghost use Rattle.archive_service.specs.PrunableStore.{openable_serving};
ghost use Rattle.archive_service.specs.Stores.{PutsOnly};
ghost use Rattle.archive_service.specs.declared.store.openable.Openable.TheVariants.{Closed, Open};

mod indices;
mod multi;

use super::{Openable, Store};
use archives::prunable::{Archive, Config};
use archives::{Archive as _, Command, Error, Identifier, Reply, Translator};
use blob_device::{Device, Handle};
use sealed_pages::PageBlob;
use segments::SectionBuffer;
use std::alloc::Global;
use value_codec::{Codec, Key, Seal};

// What a command puts: an index, a key and a value.
type NewItem<'c, K, V> = (u64, K, &'c V);

impl<T: Translator, K: Key, V: Codec, S: Seal> Store for Openable<Archive<T, K, V, S>> {
    type Config = Config<T, V::Cfg>;

    type Key = K;

    type Value = V;

    ghost means = { λ cfg. openable_serving (means ⟦<PageBlob<S> as SectionBuffer>⟧)
        (setup_for K.SIZE S.Seal V.Codec T.word_of T.Word.eq cfg) (IsValid cfg) };

    fn open<D: Device>(alloc: Global, dev: &mut D, cfg: &Self::Config) -> Result<Self, Error> {
        Archive::<T, K, V, S>::start_laws(cfg, dev);
        opened(Archive::init(alloc, dev, cfg))
    }

    fn answer<D: Device>(
        self,
        alloc: Global,
        dev: &mut D,
        cfg: &Self::Config,
        command: &Command<K, V>,
    ) -> Result<(Self, Reply<V>), Error> {
        match self {
            Openable::Open(archive) => carry_out(archive, alloc, dev, cfg, command),
            Openable::Closed(floor) => answer_closed(floor, alloc, dev, cfg, command),
        }
    }
}

// Carries out a command on an open archive.
fn carry_out<T: Translator, K: Key, V: Codec, S: Seal, D: Device>(
    archive: Archive<T, K, V, S>,
    alloc: Global,
    dev: &mut D,
    cfg: &Config<T, V::Cfg>,
    command: &Command<K, V>,
) -> Result<(Openable<Archive<T, K, V, S>>, Reply<V>), Error>
    requires valid { IsValid cfg.now }
    requires usable { MayUse (⟦<Openable<Archive<T, K, V, S>> as Store>⟧.means cfg.now)
        D.Device (Open archive) dev.old }
    requires value { PutsOnly (⟦<Openable<Archive<T, K, V, S>> as Store>⟧.means cfg.now).Accepts
        command.now }
    ensures { Answers (⟦<Openable<Archive<T, K, V, S>> as Store>⟧.means cfg.now)
        D.Device (Open archive) (asked K.key_bytes V.spelling command.now)
        (outcome (λ r. (r.0, replied V.spelling r.1)) result) dev.old dev.new }
{
    match command {
        Command::Put(index, key, value) => put(archive, dev, cfg, (*index, *key, value)),
        Command::PutSync(index, key, value) => put_sync(archive, dev, cfg, (*index, *key, value)),
        Command::PutStart(index, key, value) => put_start(archive, dev, cfg, (*index, *key, value)),
        Command::Sync => sync(archive, dev, cfg),
        Command::Start => start(archive, dev, cfg),
        Command::Reopen => reopen(archive, alloc, dev, cfg),
        Command::Get(index) => get(archive, dev, cfg, by_index(command, *index)),
        Command::GetKey(key) => get(archive, dev, cfg, Identifier::Key(key)),
        Command::Has(index) => has(archive, dev, cfg, by_index(command, *index)),
        Command::HasKey(key) => has(archive, dev, cfg, Identifier::Key(key)),
        Command::Multi(index, key, value) => multi::put(archive, dev, cfg, (*index, *key, value)),
        Command::MultiSync(index, key, value) => {
            multi::put_sync(archive, dev, cfg, (*index, *key, value))
        }
        Command::MultiStart(index, key, value) => {
            multi::put_start(archive, dev, cfg, (*index, *key, value))
        }
        Command::HasAt(index, key) => multi::has_at(archive, dev, cfg, *index, key),
        Command::All(index) => multi::all(archive, dev, cfg, *index),
        Command::Gap(index) => indices::gap(archive, dev, cfg, *index),
        Command::Missing(index, count) => {
            indices::missing(archive, alloc, dev, cfg, (*index, *count))
        }
        Command::Ranges => indices::ranges(archive, alloc, dev, cfg),
        Command::RangesFrom(index) => indices::ranges_from(archive, alloc, dev, cfg, *index),
        Command::First => indices::first(archive, dev, cfg),
        Command::Last => indices::last(archive, dev, cfg),
        Command::Prune(bound) => prune(archive, dev, cfg, *bound),
        Command::Destroy => destroy(archive, dev, cfg),
    }
}

fn put<T: Translator, K: Key, V: Codec, S: Seal, D: Device>(
    archive: Archive<T, K, V, S>,
    dev: &mut D,
    _cfg: &Config<T, V::Cfg>,
    put: NewItem<'_, K, V>,
) -> Result<(Openable<Archive<T, K, V, S>>, Reply<V>), Error>
    requires usable { MayUse (⟦<Openable<Archive<T, K, V, S>> as Store>⟧.means _cfg.now)
        D.Device (Open archive) dev.old }
    requires value { (⟦<Openable<Archive<T, K, V, S>> as Store>⟧.means _cfg.now).Accepts put.2.now }
    ensures { Answers (⟦<Openable<Archive<T, K, V, S>> as Store>⟧.means _cfg.now)
        D.Device (Open archive)
        (Put put.entry.0 (K.key_bytes put.entry.1) (V.spelling put.entry.2.now))
        (outcome (λ r. (r.0, replied V.spelling r.1)) result) dev.old dev.new }
{
    archive.crash_laws(dev);
    done(archive.put(dev, put.0, put.1, put.2))
}

fn put_sync<T: Translator, K: Key, V: Codec, S: Seal, D: Device>(
    archive: Archive<T, K, V, S>,
    dev: &mut D,
    _cfg: &Config<T, V::Cfg>,
    put: NewItem<'_, K, V>,
) -> Result<(Openable<Archive<T, K, V, S>>, Reply<V>), Error>
    requires usable { MayUse (⟦<Openable<Archive<T, K, V, S>> as Store>⟧.means _cfg.now)
        D.Device (Open archive) dev.old }
    requires value { (⟦<Openable<Archive<T, K, V, S>> as Store>⟧.means _cfg.now).Accepts put.2.now }
    ensures { Answers (⟦<Openable<Archive<T, K, V, S>> as Store>⟧.means _cfg.now)
        D.Device (Open archive)
        (PutSync put.entry.0 (K.key_bytes put.entry.1) (V.spelling put.entry.2.now))
        (outcome (λ r. (r.0, replied V.spelling r.1)) result) dev.old dev.new }
{
    archive.crash_laws(dev);
    done(archive.put_sync(dev, put.0, put.1, put.2))
}

fn put_start<T: Translator, K: Key, V: Codec, S: Seal, D: Device>(
    archive: Archive<T, K, V, S>,
    dev: &mut D,
    _cfg: &Config<T, V::Cfg>,
    put: NewItem<'_, K, V>,
) -> Result<(Openable<Archive<T, K, V, S>>, Reply<V>), Error>
    requires usable { MayUse (⟦<Openable<Archive<T, K, V, S>> as Store>⟧.means _cfg.now)
        D.Device (Open archive) dev.old }
    requires value { (⟦<Openable<Archive<T, K, V, S>> as Store>⟧.means _cfg.now).Accepts put.2.now }
    ensures { Answers (⟦<Openable<Archive<T, K, V, S>> as Store>⟧.means _cfg.now)
        D.Device (Open archive)
        (PutStart put.entry.0 (K.key_bytes put.entry.1) (V.spelling put.entry.2.now))
        (outcome (λ r. (r.0, replied V.spelling r.1)) result) dev.old dev.new }
{
    archive.crash_laws(dev);
    started(archive.put_start_sync(dev, put.0, put.1, put.2))
}

fn sync<T: Translator, K: Key, V: Codec, S: Seal, D: Device>(
    archive: Archive<T, K, V, S>,
    dev: &mut D,
    _cfg: &Config<T, V::Cfg>,
) -> Result<(Openable<Archive<T, K, V, S>>, Reply<V>), Error>
    requires usable { MayUse (⟦<Openable<Archive<T, K, V, S>> as Store>⟧.means _cfg.now)
        D.Device (Open archive) dev.old }
    ensures { Answers (⟦<Openable<Archive<T, K, V, S>> as Store>⟧.means _cfg.now)
        D.Device (Open archive) Sync
        (outcome (λ r. (r.0, replied V.spelling r.1)) result) dev.old dev.new }
{
    archive.crash_laws(dev);
    done(archive.sync(dev))
}

fn start<T: Translator, K: Key, V: Codec, S: Seal, D: Device>(
    archive: Archive<T, K, V, S>,
    dev: &mut D,
    _cfg: &Config<T, V::Cfg>,
) -> Result<(Openable<Archive<T, K, V, S>>, Reply<V>), Error>
    requires usable { MayUse (⟦<Openable<Archive<T, K, V, S>> as Store>⟧.means _cfg.now)
        D.Device (Open archive) dev.old }
    ensures { Answers (⟦<Openable<Archive<T, K, V, S>> as Store>⟧.means _cfg.now)
        D.Device (Open archive) Start
        (outcome (λ r. (r.0, replied V.spelling r.1)) result) dev.old dev.new }
{
    archive.crash_laws(dev);
    started(archive.start_sync(dev))
}

// Gives up the archive as it is, and opens it again.
fn reopen<T: Translator, K: Key, V: Codec, S: Seal, D: Device>(
    archive: Archive<T, K, V, S>,
    alloc: Global,
    dev: &mut D,
    cfg: &Config<T, V::Cfg>,
) -> Result<(Openable<Archive<T, K, V, S>>, Reply<V>), Error>
    requires valid { IsValid cfg.now }
    requires usable { MayUse (⟦<Openable<Archive<T, K, V, S>> as Store>⟧.means cfg.now)
        D.Device (Open archive) dev.old }
    ensures { Answers (⟦<Openable<Archive<T, K, V, S>> as Store>⟧.means cfg.now)
        D.Device (Open archive) Reopen
        (outcome (λ r. (r.0, replied V.spelling r.1)) result) dev.old dev.new }
{
    archive.crash_laws(dev);
    drop(archive);
    done(Archive::init(alloc, dev, cfg))
}

fn get<T: Translator, K: Key, V: Codec, S: Seal, D: Device>(
    archive: Archive<T, K, V, S>,
    dev: &mut D,
    _cfg: &Config<T, V::Cfg>,
    identifier: Identifier<'_, K>,
) -> Result<(Openable<Archive<T, K, V, S>>, Reply<V>), Error>
    requires usable { MayUse (⟦<Openable<Archive<T, K, V, S>> as Store>⟧.means _cfg.now)
        D.Device (Open archive) dev.old }
    ensures { Answers (⟦<Openable<Archive<T, K, V, S>> as Store>⟧.means _cfg.now)
        D.Device (Open archive) (get_command (wanted_of K.key_bytes identifier.entry))
        (outcome (λ r. (r.0, replied V.spelling r.1)) result) dev.old dev.new }
{
    archive.crash_laws(dev);
    let answer = archive.get(dev, identifier);
    found(archive, answer)
}

fn has<T: Translator, K: Key, V: Codec, S: Seal, D: Device>(
    archive: Archive<T, K, V, S>,
    dev: &mut D,
    _cfg: &Config<T, V::Cfg>,
    identifier: Identifier<'_, K>,
) -> Result<(Openable<Archive<T, K, V, S>>, Reply<V>), Error>
    requires usable { MayUse (⟦<Openable<Archive<T, K, V, S>> as Store>⟧.means _cfg.now)
        D.Device (Open archive) dev.old }
    ensures { Answers (⟦<Openable<Archive<T, K, V, S>> as Store>⟧.means _cfg.now)
        D.Device (Open archive) (has_command (wanted_of K.key_bytes identifier.entry))
        (outcome (λ r. (r.0, replied V.spelling r.1)) result) dev.old dev.new }
{
    archive.crash_laws(dev);
    let answer = archive.has(dev, identifier);
    told(archive, answer)
}

// Removes the sections below that of the bound.
fn prune<T: Translator, K: Key, V: Codec, S: Seal, D: Device>(
    archive: Archive<T, K, V, S>,
    dev: &mut D,
    _cfg: &Config<T, V::Cfg>,
    bound: u64,
) -> Result<(Openable<Archive<T, K, V, S>>, Reply<V>), Error>
    requires usable { MayUse (⟦<Openable<Archive<T, K, V, S>> as Store>⟧.means _cfg.now)
        D.Device (Open archive) dev.old }
    ensures { Answers (⟦<Openable<Archive<T, K, V, S>> as Store>⟧.means _cfg.now)
        D.Device (Open archive) (Prune bound)
        (outcome (λ r. (r.0, replied V.spelling r.1)) result) dev.old dev.new }
{
    archive.crash_laws(dev);
    done(archive.prune(dev, bound))
}

// Removes all, and closes the archive.
fn destroy<T: Translator, K: Key, V: Codec, S: Seal, D: Device>(
    archive: Archive<T, K, V, S>,
    dev: &mut D,
    _cfg: &Config<T, V::Cfg>,
) -> Result<(Openable<Archive<T, K, V, S>>, Reply<V>), Error>
    requires usable { MayUse (⟦<Openable<Archive<T, K, V, S>> as Store>⟧.means _cfg.now)
        D.Device (Open archive) dev.old }
    ensures { Answers (⟦<Openable<Archive<T, K, V, S>> as Store>⟧.means _cfg.now)
        D.Device (Open archive) Destroy
        (outcome (λ r. (r.0, replied V.spelling r.1)) result) dev.old dev.new }
{
    archive.crash_laws(dev);
    // What it holds is given up with it: only its floor outlasts this.
    let floor = archive.floor();
    closed(floor, archive.destroy(dev))
}

// A closed archive is opened, and does nothing else.
fn answer_closed<T: Translator, K: Key, V: Codec, S: Seal, D: Device>(
    floor: u64,
    alloc: Global,
    dev: &mut D,
    cfg: &Config<T, V::Cfg>,
    command: &Command<K, V>,
) -> Result<(Openable<Archive<T, K, V, S>>, Reply<V>), Error>
    requires valid { IsValid cfg.now }
    ensures { Answers (⟦<Openable<Archive<T, K, V, S>> as Store>⟧.means cfg.now)
        D.Device (Closed floor) (asked K.key_bytes V.spelling command.now)
        (outcome (λ r. (r.0, replied V.spelling r.1)) result) dev.old dev.new }
{
    match command {
        Command::Reopen => done(Archive::init(alloc, dev, cfg)),
        Command::Put(..)
        | Command::PutSync(..)
        | Command::PutStart(..)
        | Command::Multi(..)
        | Command::MultiSync(..)
        | Command::MultiStart(..)
        | Command::Get(_)
        | Command::GetKey(_)
        | Command::Has(_)
        | Command::HasKey(_)
        | Command::HasAt(..)
        | Command::All(_)
        | Command::Gap(_)
        | Command::Missing(..)
        | Command::Ranges
        | Command::RangesFrom(_)
        | Command::First
        | Command::Last
        | Command::Sync
        | Command::Start
        | Command::Prune(_)
        | Command::Destroy => Ok((Openable::Closed(floor), Reply::Closed)),
    }
}

// What names the record of a command by its index, for as long as the command is there.
fn by_index<'c, K, V>(_command: &'c Command<K, V>, index: u64) -> Identifier<'c, K>
    ensures { result ≡ Index index }
{
    Identifier::Index(index)
}

// What an opening answers: the archive, open.
fn opened<A>(archive: Result<A, Error>) -> Result<Openable<A>, Error>
    ensures { result ≡ outcome (λ made. Open made) archive }
{
    Ok(Openable::Open(archive?))
}

// What a call that changes an archive answers: the archive, with the reply that all was done.
fn done<A, V>(changed: Result<A, Error>) -> Result<(Openable<A>, Reply<V>), Error>
    ensures { result ≡ outcome (λ archive. (Open archive, Done)) changed }
{
    Ok((Openable::Open(changed?), Reply::Done))
}

// What a removal answers: the archive is closed, with the floor that it had.
fn closed<A, V>(floor: u64, removed: Result<(), Error>) -> Result<(Openable<A>, Reply<V>), Error>
    ensures { result ≡ outcome (λ gone. (Closed floor, Done)) removed }
{
    removed?;
    Ok((Openable::Closed(floor), Reply::Done))
}

// The same, where a sync was started: it has finished.
fn started<A, V>(changed: Result<(A, Handle), Error>) -> Result<(Openable<A>, Reply<V>), Error>
    ensures { result ≡ outcome (λ both. (Open both.0, Done)) changed }
{
    let (archive, _finished) = changed?;
    Ok((Openable::Open(archive), Reply::Done))
}

fn found<A: Drop, V: Drop>(
    archive: A,
    value: Result<Option<V>, Error>,
) -> Result<(Openable<A>, Reply<V>), Error>
    ensures { result ≡ outcome (λ v. (Open archive, Value v)) value }
{
    Ok((Openable::Open(archive), Reply::Value(value?)))
}

fn told<A: Drop, V>(
    archive: A,
    holds: Result<bool, Error>,
) -> Result<(Openable<A>, Reply<V>), Error>
    ensures { result ≡ outcome (λ b. (Open archive, Flag b)) holds }
{
    Ok((Openable::Open(archive), Reply::Flag(holds?)))
}
