// Commands in order, each with its mark and its reply.
ghost use Rattle.std.specs.Prelude.{◌≡◌, [], map};
ghost use Rattle.std.specs.List.{AllByRecursion};
ghost use Rattle.archives.specs.Machine.{asked, replied};
ghost use Rattle.archive_service.specs.StoreCalls.{MayUse};
ghost use Rattle.archive_service.specs.Serves.{ServesBy};
ghost use Rattle.archive_service.specs.ServesOne.{ServesOne, end_of};
ghost use Rattle.archive_service.specs.Stores.{IsValidStore, PutsOnly, codec_config_of, kind_in};

use crate::store::{Openable, Store};
use crate::{End, Marks, Replies, Served};
use archives::{Command, Error, Translator, prunable};
use blob_device::Device;
use std::alloc::Global;
use value_codec::{Codec, Hash32, Key, Seal};

/// Which archive serves, and where it is kept.
#[derive(Drop)]
pub enum StoreConfig<T, C> {
    /// An archive whose first sections can be pruned.
    Prunable(prunable::Config<T, C>),
}

/// Opens the archive, and then serves commands in order. It ends at the first error, also of a lookup, and does not sync at its end.
///
/// From a lawful image with nothing pending, what was replied is a run of the machine, and at every moment each crash leaves what it may. From any image,
/// no blob changes but those that the command under way may change, and an error has its cause. Over any device, a fault is the device's.
///
/// The configuration has to be valid, and each value that is put one that the codec allows. `H` is the hash of archives with a hash table.
pub fn serve<D, T, K, V, S, H>(
    alloc: Global,
    dev: &mut D,
    store: &StoreConfig<T, V::Cfg>,
    commands: &[Command<K, V>],
) -> Served<V>
where
    D: Device,
    T: Translator,
    K: Key,
    V: Codec,
    S: Seal,
    H: Hash32,
    requires valid { IsValidStore store.now }
    requires values { AllByRecursion (PutsOnly (λ v. V.accepted v
        (codec_config_of store.now))) commands.now }
    ensures { ServesBy (kind_in K.SIZE S.Seal V.refusal store.now) D.Device
        (map (asked K.key_bytes V.spelling) commands.now) result.marks
        (map (replied V.spelling) result.replies) result.end dev.old dev.new }
{
    match store {
        StoreConfig::Prunable(cfg) => {
            serve_from::<Openable<prunable::Archive<T, K, V, S>>, D>(alloc, dev, cfg, commands)
        }
    }
}

/// As [`serve`], from a store of any kind.
pub fn serve_from<A: Store, D: Device>(
    alloc: Global,
    dev: &mut D,
    cfg: &A::Config,
    commands: &[Command<A::Key, A::Value>],
) -> Served<A::Value>
    requires valid { (A.means cfg.now).IsValid }
    requires values { AllByRecursion (PutsOnly (A.means cfg.now).Accepts) commands.now }
    ensures { ServesBy (A.means cfg.now).kind D.Device
        (map (asked A.Key.key_bytes A.Value.spelling) commands.now) result.marks
        (map (replied A.Value.spelling) result.replies) result.end dev.old dev.new }
{
    let mut progress = Progress {
        marks: Marks::new(alloc),
        replies: Replies::new(alloc),
    };
    let done = serve_each::<A, D>(alloc, dev, cfg, commands, &mut progress);
    let Progress { marks, replies } = progress;
    let end = ended(done);
    Served {
        replies,
        marks,
        end,
    }
}

// The marks and the replies so far.
#[derive(Drop)]
struct Progress<V> {
    // one for each command that was begun
    marks: Marks,
    // one for each command that was answered: as many as the marks, or one less
    replies: Replies<V>,
}

// How the run ended, by what its loop answered.
fn ended(done: Result<(), Error>) -> End
    ensures { result ≡ end_of done }
{
    match done {
        Ok(()) => End::Done,
        Err(error) => End::Failed(error),
    }
}

// Opens the store, and serves the commands from it.
fn serve_each<A: Store, D: Device>(
    alloc: Global,
    dev: &mut D,
    cfg: &A::Config,
    commands: &[Command<A::Key, A::Value>],
    progress: &mut Progress<A::Value>,
) -> Result<(), Error>
    requires valid { (A.means cfg.now).IsValid }
    requires values { AllByRecursion (PutsOnly (A.means cfg.now).Accepts) commands.now }
    requires no_marks { progress.old.marks ≡ [] }
    requires no_replies { progress.old.replies ≡ [] }
    ensures { ServesBy (A.means cfg.now).kind D.Device
        (map (asked A.Key.key_bytes A.Value.spelling) commands.now) progress.new.marks
        (map (replied A.Value.spelling) progress.new.replies) (end_of result) dev.old dev.new }
{
    let mut archive = A::open(alloc, dev, cfg)?;
    for command in commands {
        archive = serve_one(archive, alloc, dev, cfg, command, progress)?;
    }
    drop(archive);
    Ok(())
}

// Stores the mark of a command, carries it out, and keeps its reply.
fn serve_one<A: Store, D: Device>(
    archive: A,
    alloc: Global,
    dev: &mut D,
    cfg: &A::Config,
    command: &Command<A::Key, A::Value>,
    progress: &mut Progress<A::Value>,
) -> Result<A, Error>
    requires valid { (A.means cfg.now).IsValid }
    requires usable { MayUse (A.means cfg.now) D.Device archive dev.old }
    requires value { PutsOnly (A.means cfg.now).Accepts command.now }
    ensures { ServesOne (A.means cfg.now) D.Device archive
        (asked A.Key.key_bytes A.Value.spelling command.now) result dev.old dev.new
        progress.old.marks progress.new.marks
        (map (replied A.Value.spelling) progress.old.replies)
        (map (replied A.Value.spelling) progress.new.replies) }
{
    progress.marks.push(dev.calls())?;
    let (archive, reply) = archive.answer(alloc, dev, cfg, command)?;
    progress.replies.push(reply)?;
    Ok(archive)
}
