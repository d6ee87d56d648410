// Steps that only ask what a call answers: errors, words of keys, and records of the index.
use crate::changes::key_at;
use crate::error_words::ErrorWords;
use archives::prunable::IndexRecord;
use archives::{Error, FourCap, Translator};
use blob_device::RError;
use meta_store::Side;
use paired::Record;
use scenario_errors::CodecWords;
use scenario_text::Step;
use segments::journal::{self, Damage};
use std::alloc::{AllocError, AllocFailed, Global};
use value_codec::{Codec, CodecFixed, HexName, Key, Key8, Key32, codec};

/// What such a step says; none where it is none.
pub fn told(alloc: Global, step: &Step) -> Result<Option<String>, AllocError> {
    let said = match (step.word(), step.argument(1).len(), step.number(0)) {
        ("errors", _, _) => errors(alloc),
        ("word", _, _) => word(alloc, step),
        ("spell", 16, _) => spelled::<Key8>(alloc, step),
        ("spell", 64, _) => spelled::<Key32>(alloc, step),
        ("read", _, Some(8)) => read::<Key8>(alloc, step),
        ("read", _, Some(32)) => read::<Key32>(alloc, step),
        _ => return Ok(None),
    };
    Ok(Some(said?))
}

// What lower errors become.
fn errors(alloc: Global) -> Result<String, AllocError> {
    let mut said = String::new(alloc);
    let name = HexName::new(alloc, b"abc").map_err(|_| AllocError)?;
    for error in [
        journal::Error::Runtime(RError::Fault),
        journal::Error::Runtime(RError::InvalidChecksum(3)),
        journal::Error::Codec(codec::Error::TooLong),
        journal::Error::InvalidBlobName(name),
        journal::Error::ChecksumMismatch(1, 2),
        journal::Error::ValueTooLarge,
        journal::Error::Corruption(Damage {
            section: 4,
            kept: 1,
            wanted: 2,
        }),
        journal::Error::Metadata(meta_store::Error::Runtime(RError::Fault)),
        journal::Error::Metadata(meta_store::Error::Corruption(Side::Left)),
        journal::Error::Metadata(meta_store::Error::Full),
        journal::Error::Metadata(meta_store::Error::Mem),
        journal::Error::Full,
        journal::Error::Mem,
    ] {
        add(&mut said, Error::from(error))?;
    }
    for error in [
        Error::from(meta_store::Error::Corruption(Side::Right)),
        Error::from(meta_store::Error::Full),
        Error::from(meta_store::Error::Mem),
        Error::from(AllocError),
        Error::from(AllocFailed { value: 0 }),
        Error::RecordCorrupted,
    ] {
        add(&mut said, error)?;
    }
    Ok(said)
}

// Adds the words for an error.
fn add(said: &mut String, error: Error) -> Result<(), AllocError> {
    let between = if said.is_empty() { "" } else { " / " };
    write!(said, "{between}{}", ErrorWords(&error))
}

// The word of a key.
fn word(alloc: Global, step: &Step) -> Result<String, AllocError> {
    let Some(key) = step.bytes(alloc, 0)? else {
        return String::from_str(alloc, "refused");
    };
    hex::encode(alloc, &FourCap.transform(key.as_slice()))
}

// The bytes of a record, written behind another byte.
fn spelled<K: Key>(alloc: Global, step: &Step) -> Result<String, AllocError> {
    let Some(key) = key_at::<K>(alloc, step, 1)? else {
        return String::from_str(alloc, "refused");
    };
    let mut record = IndexRecord::new(step.number(0).unwrap_or(0), key);
    for (at, behind) in [(2, 3), (4, 5)] {
        if let (Some(offset), Some(size)) = (step.number(at), step.number(behind)) {
            record = record.with_location(offset, u32::try_from(size).unwrap_or(u32::MAX));
        }
    }
    if !record.accepts(()) {
        return String::from_str(alloc, "not accepted");
    }
    let mut out = Vec::new(alloc);
    out.push(0xff)?;
    match record.write(&mut out) {
        Ok(()) => hex::encode(alloc, out.as_slice()),
        Err(error) => format!(in alloc; "error {}", CodecWords(error)),
    }
}

// The record that bytes are.
fn read<K: Key>(alloc: Global, step: &Step) -> Result<String, AllocError> {
    let bytes = step.bytes(alloc, 1)?.unwrap_or(Vec::new(alloc));
    let record = match IndexRecord::<K>::decode_cfg(alloc, bytes.as_slice(), ()) {
        Ok(record) => record,
        Err(error) => return format!(in alloc; "error {}", CodecWords(error)),
    };
    let key = hex::encode(alloc, record.key().as_bytes())?;
    let (offset, size) = record.value_location();
    let place = format!(in alloc;
        "{offset} {size}, {} of {}",
        record.encode_size(),
        IndexRecord::<K>::SIZE
    )?;
    format!(in alloc; "{} {} {}", record.index(), key.as_str(), place.as_str())
}
