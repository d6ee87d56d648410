//! The words by which scenarios name the errors of sections and journals, and of what stands below them.
//!
//! An error is shown to people by a sentence. A scenario compares words, and these stay where a sentence changes.
#![tactic(auto)]

use blob_device::RError;
use meta_store::Side;
use segments::journal::{self, Damage};
use std::fmt;
use value_codec::codec;

/// The words for an error of sections, or of a journal.
#[derive(Clone, Copy, Debug)]
pub struct JournalWords<'a>(pub &'a journal::Error);

/// The words for an error of a map.
#[derive(Clone, Copy, Debug)]
pub struct MapWords(pub meta_store::Error);

/// The words for an error of a value's bytes.
#[derive(Clone, Copy, Debug)]
pub struct CodecWords(pub codec::Error);

impl fmt::Display for JournalWords<'_> {
    fn fmt<W: fmt::Write>(&self, f: &mut fmt::Formatter<W>) -> fmt::Result {
        let JournalWords(error) = *self;
        match error {
            journal::Error::Runtime(inner) => write_runtime(*inner, f),
            journal::Error::Metadata(inner) => write_map(*inner, f),
            journal::Error::Codec(inner) => write_codec(*inner, f),
            journal::Error::InvalidBlobName(name) => write!(f, "invalid-blob-name {name}"),
            journal::Error::ItemOutOfRange(item) => write!(f, "item-out-of-range {item}"),
            journal::Error::SectionOutOfRange(section) => {
                write!(f, "section-out-of-range {section}")
            }
            journal::Error::AlreadyPrunedToSection(floor) => write!(f, "already-pruned {floor}"),
            journal::Error::ChecksumMismatch(stored, computed) => {
                write!(f, "checksum-mismatch {stored} {computed}")
            }
            journal::Error::ValueTooLarge => f.write_str("value-too-large"),
            journal::Error::OffsetOverflow => f.write_str("offset-overflow"),
            journal::Error::Corruption(damage) => write_damage(*damage, f),
            journal::Error::ReplayFailed => f.write_str("replay-failed"),
            journal::Error::Full => f.write_str("full"),
            journal::Error::Mem => f.write_str("memory"),
        }
    }
}

impl fmt::Display for MapWords {
    fn fmt<W: fmt::Write>(&self, f: &mut fmt::Formatter<W>) -> fmt::Result {
        let MapWords(error) = *self;
        write_map(error, f)
    }
}

impl fmt::Display for CodecWords {
    fn fmt<W: fmt::Write>(&self, f: &mut fmt::Formatter<W>) -> fmt::Result {
        let CodecWords(error) = *self;
        write_codec(error, f)
    }
}

fn write_damage<W: fmt::Write>(damage: Damage, f: &mut fmt::Formatter<W>) -> fmt::Result {
    let Damage {
        section,
        kept,
        wanted,
    } = damage;
    write!(f, "corruption {section} {kept} {wanted}")
}

fn write_map<W: fmt::Write>(error: meta_store::Error, f: &mut fmt::Formatter<W>) -> fmt::Result {
    match error {
        meta_store::Error::Runtime(inner) => write_runtime(inner, f),
        meta_store::Error::Corruption(Side::Left) => f.write_str("corruption left"),
        meta_store::Error::Corruption(Side::Right) => f.write_str("corruption right"),
        meta_store::Error::Full => f.write_str("full"),
        meta_store::Error::Mem => f.write_str("memory"),
    }
}

fn write_runtime<W: fmt::Write>(error: RError, f: &mut fmt::Formatter<W>) -> fmt::Result {
    match error {
        RError::Fault => f.write_str("runtime fault"),
        RError::InvalidChecksum(page) => write!(f, "runtime invalid-checksum {page}"),
        RError::BlobInsufficientLength => f.write_str("runtime insufficient-length"),
        RError::OffsetOverflow => f.write_str("runtime offset-overflow"),
        RError::Mem => f.write_str("memory"),
    }
}

fn write_codec<W: fmt::Write>(error: codec::Error, f: &mut fmt::Formatter<W>) -> fmt::Result {
    match error {
        codec::Error::EndOfBuffer => f.write_str("codec end-of-buffer"),
        codec::Error::ExtraBytes => f.write_str("codec extra-bytes"),
        codec::Error::TooLong => f.write_str("codec too-long"),
        codec::Error::InvalidVarint => f.write_str("codec invalid-varint"),
        codec::Error::InvalidEnum(tag) => write!(f, "codec invalid-enum {tag}"),
        codec::Error::Mem => f.write_str("memory"),
    }
}
