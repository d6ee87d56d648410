// How the records in a list are served.
ghost use Rattle.scenarios.specs.ListedKind.{listed_serving};

use super::Listed;
use archive_service::Store;
use archives::{Command, Error, Reply};
use blob_device::Device;
use std::alloc::Global;
use value_codec::{ByteValue, Key8};

impl Store for Listed {
    type Config = ();

    type Key = Key8;

    type Value = ByteValue;

    ghost means = { λ cfg. listed_serving };

    fn open<D: Device>(alloc: Global, _dev: &mut D, _cfg: &()) -> Result<Listed, Error> {
        Ok(Listed::empty(alloc))
    }

    fn answer<D: Device>(
        self,
        alloc: Global,
        _dev: &mut D,
        _cfg: &(),
        command: &Command<Key8, ByteValue>,
    ) -> Result<(Listed, Reply<ByteValue>), Error> {
        match command {
            Command::Reopen => Ok((Listed::empty(alloc), Reply::Done)),
            command => {
                let Listed { machine } = self;
                let mut machine = machine;
                let reply = machine.step(command)?;
                Ok((Listed { machine }, reply))
            }
        }
    }
}
