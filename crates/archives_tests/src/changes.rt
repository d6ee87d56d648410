// Steps that change an archive.
use crate::sample::Sample;
use blob_device::CrashChoice;
use scenario_text::Step;
use std::alloc::{AllocError, Global};
use value_codec::Key;

/// A record to be put.
#[derive(Drop)]
pub struct Put<K> {
    /// The index,
    pub index: u64,
    /// the key,
    pub key: K,
    /// and the value of the record.
    pub value: Sample,
}

/// A call that changes an archive.
#[derive(Drop)]
pub enum Change<K> {
    Put(Put<K>),
    PutSync(Put<K>),
    PutStart(Put<K>),
    Multi(Put<K>),
    Sync,
    Start,
    Prune(u64),
}

/// The key that stands at this place behind a step's first word.
pub fn key_at<K: Key>(alloc: Global, step: &Step, at: usize) -> Result<Option<K>, AllocError> {
    match step.bytes(alloc, at)? {
        Some(bytes) => Ok(K::from_bytes(bytes.as_slice())),
        None => Ok(None),
    }
}

// The record that stands behind a step's first word.
fn put_of<K: Key>(alloc: Global, step: &Step) -> Result<Option<Put<K>>, AllocError> {
    let key = key_at(alloc, step, 1)?;
    let bytes = step.bytes(alloc, 2)?;
    let (Some(index), Some(key), Some(bytes)) = (step.number(0), key, bytes) else {
        return Ok(None);
    };
    let zeros = step.number(3).unwrap_or(0);
    let value = Sample { zeros, bytes };
    Ok(Some(Put { index, key, value }))
}

/// The call that a step asks for.
pub fn change_of<K: Key>(alloc: Global, step: &Step) -> Result<Option<Change<K>>, AllocError> {
    if let ("prune", Some(index)) = (step.word(), step.number(0)) {
        return Ok(Some(Change::Prune(index)));
    }
    let put = put_of(alloc, step)?;
    Ok(match (step.word(), put) {
        ("put", Some(put)) => Some(Change::Put(put)),
        ("putsync", Some(put)) => Some(Change::PutSync(put)),
        ("putstart", Some(put)) => Some(Change::PutStart(put)),
        ("multi", Some(put)) => Some(Change::Multi(put)),
        ("sync", _) => Some(Change::Sync),
        ("start", _) => Some(Change::Start),
        _ => None,
    })
}

/// The crash that a step names.
pub fn choice_of(step: &Step) -> Option<CrashChoice> {
    match (step.argument(0), step.number(1)) {
        ("settled", _) => Some(CrashChoice::Settled),
        ("as-read", _) => Some(CrashChoice::AsRead),
        ("mixed", Some(bits)) => Some(CrashChoice::Mixed(bits)),
        _ => None,
    }
}
