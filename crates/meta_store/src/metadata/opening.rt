// How a map is opened.
ghost use Rattle.std.specs.Prelude.{◌≤◌, string_bytes, string_len, IsSomeAnd};
ghost use Rattle.std.specs.Map.{keys_of};
ghost use Rattle.std.specs.List.Sorted.{IsStrictlySortedBy};
ghost use Rattle.meta_store.specs.Format.{format_of};
ghost use Rattle.meta_store.specs.Blobs.{blob_of};
ghost use Rattle.meta_store.specs.Calls.{outcome};
ghost use Rattle.meta_store.specs.Opening.{Holds, Inits, Loads, OpensBoth};

use crate::copy::Contents;
use crate::metadata::{Config, Metadata};
use crate::pair::{Chosen, choose};
use crate::{Error, Side};
use blob_device::{DevError, Device};
use std::alloc::Global;
use std::collections::BTreeMap;
use std::marker::PhantomData;
use value_codec::{Codec, Key, Seal};

impl<K: Key, V: Codec, S: Seal> Metadata<K, V, S> {
    ghost use Rattle.meta_store.specs.Store.{seen};

    /// Opens the map, `left` first. With no copy it is empty, and its floor is 0.
    ///
    /// It answers `Corruption` exactly where a copy is sealed and no text of a map, or where both have one version; then it
    /// names the right one. Where both copies are refused, it names the left one.
    pub fn init<D: Device>(alloc: Global, dev: &mut D, cfg: &Config<V::Cfg>) -> Result<Self, Error>
        requires valid { 1 ≤ string_len cfg.now.partition }
        ensures { Inits D.Device (format_of K.cmp K.key_bytes V.Codec S.Seal) cfg.now.codec_config
            (string_bytes cfg.now.partition) dev.old dev.new (outcome seen result) }
    {
        let partition = cfg.partition.as_str();
        let (left, right) = open_copies(dev, partition)?;
        let left = load(alloc, dev, partition, Side::Left, left)?;
        let right = load(alloc, dev, partition, Side::Right, right)?;
        let left = Self::read_copy(alloc, &left, cfg.codec_config)?;
        let right = Self::read_copy(alloc, &right, cfg.codec_config)?;
        match choose(alloc, left, right) {
            Ok(chosen) => Self::holding(alloc, partition, cfg.codec_config, chosen),
            Err(side) => Err(Error::Corruption(side)),
        }
    }

    /// The map with what was chosen.
    fn holding(
        alloc: Global,
        partition: &str,
        codec_config: V::Cfg,
        chosen: Chosen<K, V>,
    ) -> Result<Self, Error>
        requires { IsStrictlySortedBy K.cmp (keys_of chosen.contents.entries) }
        ensures { Holds partition.now codec_config chosen (outcome seen result) }
    {
        let partition = String::from_str(alloc, partition)?;
        let Chosen {
            version,
            older,
            contents,
        } = chosen;
        let Contents { floor, entries } = contents;
        let mut map = BTreeMap::new(alloc);
        'entries: for (key, value) in entries.into_vec() {
            map.insert(key, value)?;
        }
        Ok(Metadata {
            alloc,
            partition,
            codec_config,
            entries: map,
            floor,
            version,
            older,
            staged: false,
            seal: PhantomData,
        })
    }
}

/// Opens the blobs of both copies, `left` first. The answer is their lengths.
fn open_copies<D: Device>(dev: &mut D, partition: &str) -> Result<(u64, u64), DevError>
    ensures { OpensBoth D.Device partition.now dev.old dev.new result }
{
    // Opened before it is read: that settles the copy, so no crash takes back the map that is read.
    let left = dev.open_blob(partition, Side::Left.name())?;
    // Opened too before a copy is read: which one is newer shows only by both.
    let right = dev.open_blob(partition, Side::Right.name())?;
    Ok((left, right))
}

/// The bytes of an opened blob of this length.
fn load<D: Device>(
    alloc: Global,
    dev: &mut D,
    partition: &str,
    side: Side,
    len: u64,
) -> Result<Vec<u8>, Error>
    requires { IsSomeAnd (D.opened dev.old (blob_of partition.now side)) (λ o. len ≤ o.len) }
    ensures { Loads D.Device partition.now dev.old dev.new side len (outcome (λ b. b.items) result) }
{
    let mut bytes = vec![in alloc; 0; len as usize]?;
    dev.read_at(partition, side.name(), 0, bytes.as_mut_slice())?;
    Ok(bytes)
}
