// The text of each error, which a step names by its variants.
use crate::given::number;
use crate::looking::text_of;
use crate::stop::Stop;
use archive_service::{write_bad_line, write_error, write_error_line};
use archives::Error;
use blob_device::RError;
use meta_store::Side;
use scenario_text::Step;
use segments::journal::{self, Damage};
use std::alloc::Global;
use value_codec::{HexName, codec};

/// Says the text of an error, or of the line that names a bad line.
pub fn write(alloc: Global, step: &Step) -> Result<String, Stop> {
    let mut text = Vec::new(alloc);
    let done = if step.word() == "text" {
        let error = error_of(alloc, step)?;
        let line = line_of(alloc, &error)?;
        let done = write_error(&error, &mut text);
        let said = text_of(alloc, &text)?;
        let wanted = format!(in alloc; "ok\nerror {said}\n")?;
        if line.as_slice() != wanted.as_bytes() {
            return Err(Stop::Said("the line of the error has another text"));
        }
        done
    } else {
        write_bad_line(number(step, 0)?, &mut text)
    };
    match done {
        Ok(()) => text_of(alloc, text.strip_suffix(b"\n").unwrap_or(&text)),
        Err(_) => Err(Stop::Mem),
    }
}

// The line of an error, behind a line that stands.
fn line_of(alloc: Global, error: &Error) -> Result<Vec<u8>, Stop> {
    let mut line = b"ok\n".to_vec(alloc)?;
    match write_error_line(error, &mut line) {
        Ok(()) => Ok(line),
        Err(_) => Err(Stop::Mem),
    }
}

// The error that a step names.
fn error_of(alloc: Global, step: &Step) -> Result<Error, Stop> {
    match step.argument(0) {
        "RecordCorrupted" => Ok(Error::RecordCorrupted),
        "Full" => Ok(Error::Full),
        "Mem" => Ok(Error::Mem),
        "Metadata" => Ok(Error::Metadata(metadata_of(step, 1)?)),
        "Journal" => Ok(Error::Journal(journal_of(alloc, step)?)),
        _ => Err(Stop::Said("no such error")),
    }
}

// The error of the markers that the words from this place on name.
fn metadata_of(step: &Step, at: usize) -> Result<meta_store::Error, Stop> {
    match (step.argument(at), step.argument(at.saturating_add(1))) {
        ("Runtime", _) => Ok(meta_store::Error::Runtime(RError::Fault)),
        ("Corruption", "Left") => Ok(meta_store::Error::Corruption(Side::Left)),
        ("Corruption", "Right") => Ok(meta_store::Error::Corruption(Side::Right)),
        ("Full", _) => Ok(meta_store::Error::Full),
        ("Mem", _) => Ok(meta_store::Error::Mem),
        _ => Err(Stop::Said("no such error of the markers")),
    }
}

// The error of the records that a step names.
fn journal_of(alloc: Global, step: &Step) -> Result<journal::Error, Stop> {
    match step.argument(1) {
        "Runtime" => Ok(journal::Error::Runtime(runtime_of(step)?)),
        "Metadata" => Ok(journal::Error::Metadata(metadata_of(step, 2)?)),
        "Codec" => Ok(journal::Error::Codec(codec_of(step)?)),
        "InvalidBlobName" => {
            let name = step.bytes(alloc, 2)?.unwrap_or(Vec::new(alloc));
            match HexName::new(alloc, &name) {
                Ok(name) => Ok(journal::Error::InvalidBlobName(name)),
                Err(_) => Err(Stop::Mem),
            }
        }
        "ValueTooLarge" => Ok(journal::Error::ValueTooLarge),
        "OffsetOverflow" => Ok(journal::Error::OffsetOverflow),
        "ReplayFailed" => Ok(journal::Error::ReplayFailed),
        "Full" => Ok(journal::Error::Full),
        "Mem" => Ok(journal::Error::Mem),
        _ => numbered(step),
    }
}

// An error of the records that says a number.
fn numbered(step: &Step) -> Result<journal::Error, Stop> {
    let first = number(step, 2)?;
    let second = step.number(3).unwrap_or(0);
    match step.argument(1) {
        "ItemOutOfRange" => Ok(journal::Error::ItemOutOfRange(first)),
        "SectionOutOfRange" => Ok(journal::Error::SectionOutOfRange(first)),
        "AlreadyPrunedToSection" => Ok(journal::Error::AlreadyPrunedToSection(first)),
        "ChecksumMismatch" => match (u32::try_from(first), u32::try_from(second)) {
            (Ok(stored), Ok(computed)) => Ok(journal::Error::ChecksumMismatch(stored, computed)),
            _ => Err(Stop::Said("the numbers are too great")),
        },
        "Corruption" => Ok(journal::Error::Corruption(Damage {
            section: first,
            kept: second,
            wanted: number(step, 4)?,
        })),
        _ => Err(Stop::Said("no such error of the records")),
    }
}

// The error of the device or of pages.
fn runtime_of(step: &Step) -> Result<RError, Stop> {
    match step.argument(2) {
        "Fault" => Ok(RError::Fault),
        "InvalidChecksum" => Ok(RError::InvalidChecksum(number(step, 3)?)),
        "BlobInsufficientLength" => Ok(RError::BlobInsufficientLength),
        "OffsetOverflow" => Ok(RError::OffsetOverflow),
        "Mem" => Ok(RError::Mem),
        _ => Err(Stop::Said("no such error of the device")),
    }
}

// The error of a value's bytes.
fn codec_of(step: &Step) -> Result<codec::Error, Stop> {
    match step.argument(2) {
        "EndOfBuffer" => Ok(codec::Error::EndOfBuffer),
        "ExtraBytes" => Ok(codec::Error::ExtraBytes),
        "TooLong" => Ok(codec::Error::TooLong),
        "InvalidVarint" => Ok(codec::Error::InvalidVarint),
        "InvalidEnum" => match u8::try_from(number(step, 3)?) {
            Ok(tag) => Ok(codec::Error::InvalidEnum(tag)),
            Err(_) => Err(Stop::Said("the tag is too great")),
        },
        "Mem" => Ok(codec::Error::Mem),
        _ => Err(Stop::Said("no such error of a value")),
    }
}
