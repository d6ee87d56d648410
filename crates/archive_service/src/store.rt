// What serves commands: a store of some kind, with its configuration.
ghost use Rattle.archives.specs.Changes.{outcome};
ghost use Rattle.archives.specs.Machine.{asked, replied};
ghost use Rattle.archive_service.specs.StoreCalls.{Answers, MayUse, OpensStore, Serving};
ghost use Rattle.archive_service.specs.Stores.{PutsOnly};

mod openable;
mod prunable;

use archives::{Command, Error, Reply};
use blob_device::Device;
pub use openable::Openable;
use std::alloc::Global;
use value_codec::{Codec, Key};

/// A store of records that serves commands, and is opened again where a command asks for it.
///
/// What it replies is told over a device that tells its disk, from a lawful image on: until its first refusal it is sound. Over any image it is told
/// which blobs a command touches, what the store then knows of itself, and why it fails; over any device, that blobs of others are left alone.
pub trait Store: Sized + Drop {
    /// Where a store is kept, and how.
    type Config;

    /// What records are found by beside their indices.
    type Key: Key;

    /// What is stored.
    type Value: Codec;

    /// What contracts see of the stores so configured: of which kind they are, when one may be used, and what it holds.
    ghost means: { Self.Config → Serving Self Self.Value };

    /// Opens the store.
    fn open<D: Device>(alloc: Global, dev: &mut D, cfg: &Self::Config) -> Result<Self, Error>
        requires valid { (means cfg.now).IsValid }
        ensures { OpensStore (means cfg.now) D.Device result dev.old dev.new };

    /// Carries out one command.
    fn answer<D: Device>(
        self,
        alloc: Global,
        dev: &mut D,
        cfg: &Self::Config,
        command: &Command<Self::Key, Self::Value>,
    ) -> Result<(Self, Reply<Self::Value>), Error>
        requires valid { (means cfg.now).IsValid }
        requires usable { MayUse (means cfg.now) D.Device self dev.old }
        requires value { PutsOnly (means cfg.now).Accepts command.now }
        ensures { Answers (means cfg.now) D.Device self
            (asked Self.Key.key_bytes Self.Value.spelling command.now)
            (outcome (λ r. (r.0, replied Self.Value.spelling r.1)) result) dev.old dev.new };
}
