// What an error means, in a sentence for people.

use archives::Error;
use blob_device::RError;
use meta_store::Side;
use segments::journal::{self, Damage};
use std::fmt;
use value_codec::codec;

/// What an error of an archive means to a person who asked for something else.
#[derive(Clone, Copy)]
pub struct Meaning<'a>(pub &'a Error);

impl fmt::Display for Meaning<'_> {
    fn fmt<W: fmt::Write>(&self, f: &mut fmt::Formatter<W>) -> fmt::Result {
        let Meaning(error) = *self;
        match error {
            Error::Journal(inner) => write_journal(inner, f),
            Error::Metadata(inner) => write_markers(inner, f),
            Error::RecordCorrupted => {
                f.write_str("a record stands in another section than its index belongs to")
            }
            Error::Full => f.write_str("a limit would be passed, or a number would not fit"),
            Error::Mem => f.write_str("there was no memory"),
        }
    }
}

fn write_journal<W: fmt::Write>(error: &journal::Error, f: &mut fmt::Formatter<W>) -> fmt::Result {
    match error {
        journal::Error::Runtime(inner) => write_runtime(*inner, f),
        journal::Error::Metadata(inner) => write_markers(inner, f),
        journal::Error::Codec(inner) => write_codec(*inner, f),
        journal::Error::InvalidBlobName(name) => write!(
            f,
            "the file {name} in keys or values is no section's: the name of one has 16 digits"
        ),
        journal::Error::ItemOutOfRange(item) => write!(f, "there is no record {item}"),
        journal::Error::SectionOutOfRange(section) => write!(f, "there is no section {section}"),
        journal::Error::AlreadyPrunedToSection(section) => {
            write!(f, "what was below section {section} is pruned")
        }
        journal::Error::ChecksumMismatch(stored, computed) => write!(
            f,
            "the value is damaged: its seal is {stored}, and that of its bytes {computed}"
        ),
        journal::Error::ValueTooLarge => f.write_str("the value is too long"),
        journal::Error::OffsetOverflow => f.write_str("a place passes 2^64"),
        journal::Error::Corruption(damage) => write_damage(*damage, f),
        journal::Error::ReplayFailed => f.write_str("the records were not read to their end"),
        journal::Error::Full => f.write_str("a section would be too long"),
        journal::Error::Mem => f.write_str("there was no memory"),
    }
}

fn write_damage<W: fmt::Write>(damage: Damage, f: &mut fmt::Formatter<W>) -> fmt::Result {
    let Damage {
        section,
        kept,
        wanted,
    } = damage;
    write!(
        f,
        "section {section:016x} is damaged: {wanted} had to be whole, and {kept} is"
    )
}

fn write_markers<W: fmt::Write>(
    error: &meta_store::Error,
    f: &mut fmt::Formatter<W>,
) -> fmt::Result {
    match error {
        meta_store::Error::Runtime(inner) => write_runtime(*inner, f),
        meta_store::Error::Corruption(Side::Left) => {
            f.write_str("meta/6c656674 is damaged, the left copy of the markers")
        }
        meta_store::Error::Corruption(Side::Right) => {
            f.write_str("meta/7269676874 is damaged, the right copy of the markers")
        }
        meta_store::Error::Full => f.write_str("the markers have no next version"),
        meta_store::Error::Mem => f.write_str("there was no memory"),
    }
}

fn write_runtime<W: fmt::Write>(error: RError, f: &mut fmt::Formatter<W>) -> fmt::Result {
    match error {
        RError::Fault => f.write_str("the folder failed"),
        RError::InvalidChecksum(page) => write!(f, "no seal of page {page} of keys holds"),
        RError::BlobInsufficientLength => f.write_str("a file is shorter than what it has to hold"),
        RError::OffsetOverflow => f.write_str("a place passes 2^64"),
        RError::Mem => f.write_str("there was no memory"),
    }
}

fn write_codec<W: fmt::Write>(error: codec::Error, f: &mut fmt::Formatter<W>) -> fmt::Result {
    match error {
        codec::Error::EndOfBuffer => f.write_str("a value ends too early"),
        codec::Error::ExtraBytes => f.write_str("bytes stand behind a value's end"),
        codec::Error::TooLong => f.write_str("a value is longer than it may be"),
        codec::Error::InvalidVarint => f.write_str("a number in a value is not well spelled"),
        codec::Error::InvalidEnum(tag) => write!(
            f,
            "a value begins with {tag}, which means nothing"
        ),
        codec::Error::Mem => f.write_str("there was no memory"),
    }
}
