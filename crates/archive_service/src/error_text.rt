// The texts of errors, as the program writes them. Each group stands before what it holds.
ghost use Rattle.std.specs.Prelude.{◌++◌};
ghost use Rattle.std.specs.Fmt.{decimal};
ghost use Rattle.archive_service.specs.ErrorTexts.{codec_text, damage_text, error_line, error_text, journal_text, metadata_text, runtime_text};
ghost use Rattle.archive_service.specs.Writing.{Appends, WritesText};

use crate::ScriptError;
use crate::text::append_hex;
use archives::Error;
use blob_device::RError;
use meta_store::Side;
use segments::journal::{self, Damage};
use std::alloc::AllocError;
use value_codec::codec;

/// Appends the text of an error.
pub fn write_error(error: &Error, out: &mut Vec<u8>) -> Result<(), ScriptError>
    ensures { WritesText result out.old.items (error_text error.now) out.new.items }
{
    let before = out.len();
    match append_error(error, out) {
        Ok(()) => Ok(()),
        Err(_) => {
            out.truncate(before);
            Err(ScriptError::Mem)
        }
    }
}

/// Appends the line that names an error, with its LF.
pub fn write_error_line(error: &Error, out: &mut Vec<u8>) -> Result<(), ScriptError>
    ensures { WritesText result out.old.items (error_line error.now) out.new.items }
{
    let before = out.len();
    match append_error_line(error, out) {
        Ok(()) => Ok(()),
        Err(_) => {
            out.truncate(before);
            Err(ScriptError::Mem)
        }
    }
}

fn append_error_line(error: &Error, out: &mut Vec<u8>) -> Result<(), AllocError>
    ensures { Appends result out.old.items (error_line error.now) out.new.items }
{
    out.extend_from_slice(b"error ")?;
    append_error(error, out)?;
    out.extend_from_slice(b"\n")
}

fn append_error(error: &Error, out: &mut Vec<u8>) -> Result<(), AllocError>
    ensures { Appends result out.old.items (error_text error.now) out.new.items }
{
    match error {
        Error::Journal(inner) => {
            out.extend_from_slice(b"journal ")?;
            append_journal(inner, out)
        }
        Error::Metadata(inner) => append_metadata(inner, out),
        Error::RecordCorrupted => out.extend_from_slice(b"record-corrupted"),
        Error::Full => out.extend_from_slice(b"full"),
        Error::Mem => out.extend_from_slice(b"memory"),
    }
}

fn append_journal(error: &journal::Error, out: &mut Vec<u8>) -> Result<(), AllocError>
    ensures { Appends result out.old.items (journal_text error.now) out.new.items }
{
    match error {
        journal::Error::Runtime(inner) => append_runtime(inner, out),
        journal::Error::Metadata(inner) => append_metadata(inner, out),
        journal::Error::Codec(inner) => append_codec(inner, out),
        journal::Error::InvalidBlobName(name) => {
            out.extend_from_slice(b"invalid-blob-name ")?;
            append_hex(name.as_bytes(), out)
        }
        journal::Error::ItemOutOfRange(n) => append_with(b"item-out-of-range ", *n, out),
        journal::Error::SectionOutOfRange(n) => append_with(b"section-out-of-range ", *n, out),
        journal::Error::AlreadyPrunedToSection(n) => append_with(b"already-pruned ", *n, out),
        journal::Error::ChecksumMismatch(stored, computed) => {
            append_with(b"checksum-mismatch ", u64::from(*stored), out)?;
            append_with(b" ", u64::from(*computed), out)
        }
        journal::Error::ValueTooLarge => out.extend_from_slice(b"value-too-large"),
        journal::Error::OffsetOverflow => out.extend_from_slice(b"offset-overflow"),
        journal::Error::Corruption(damage) => append_damage(damage, out),
        journal::Error::ReplayFailed => out.extend_from_slice(b"replay-failed"),
        journal::Error::Full => out.extend_from_slice(b"full"),
        journal::Error::Mem => out.extend_from_slice(b"memory"),
    }
}

fn append_metadata(error: &meta_store::Error, out: &mut Vec<u8>) -> Result<(), AllocError>
    ensures { Appends result out.old.items (metadata_text error.now) out.new.items }
{
    out.extend_from_slice(b"metadata ")?;
    match error {
        meta_store::Error::Runtime(inner) => append_runtime(inner, out),
        meta_store::Error::Corruption(Side::Left) => out.extend_from_slice(b"corruption left"),
        meta_store::Error::Corruption(Side::Right) => out.extend_from_slice(b"corruption right"),
        meta_store::Error::Full => out.extend_from_slice(b"full"),
        meta_store::Error::Mem => out.extend_from_slice(b"memory"),
    }
}

fn append_runtime(error: &RError, out: &mut Vec<u8>) -> Result<(), AllocError>
    ensures { Appends result out.old.items (runtime_text error.now) out.new.items }
{
    match error {
        RError::Fault => out.extend_from_slice(b"runtime fault"),
        RError::InvalidChecksum(page) => append_with(b"runtime invalid-checksum ", *page, out),
        RError::BlobInsufficientLength => out.extend_from_slice(b"runtime insufficient-length"),
        RError::OffsetOverflow => out.extend_from_slice(b"runtime offset-overflow"),
        RError::Mem => out.extend_from_slice(b"memory"),
    }
}

fn append_codec(error: &codec::Error, out: &mut Vec<u8>) -> Result<(), AllocError>
    ensures { Appends result out.old.items (codec_text error.now) out.new.items }
{
    match error {
        codec::Error::EndOfBuffer => out.extend_from_slice(b"codec end-of-buffer"),
        codec::Error::ExtraBytes => out.extend_from_slice(b"codec extra-bytes"),
        codec::Error::TooLong => out.extend_from_slice(b"codec too-long"),
        codec::Error::InvalidVarint => out.extend_from_slice(b"codec invalid-varint"),
        codec::Error::InvalidEnum(tag) => append_with(b"codec invalid-enum ", u64::from(*tag), out),
        codec::Error::Mem => out.extend_from_slice(b"memory"),
    }
}

fn append_damage(damage: &Damage, out: &mut Vec<u8>) -> Result<(), AllocError>
    ensures { Appends result out.old.items (damage_text damage.now) out.new.items }
{
    append_with(b"corruption ", damage.section, out)?;
    append_with(b" ", damage.kept, out)?;
    append_with(b" ", damage.wanted, out)
}

// Appends a text, and a number behind it.
pub(crate) fn append_with(text: &[u8], number: u64, out: &mut Vec<u8>) -> Result<(), AllocError>
    ensures { Appends result out.old.items (text.now ++ decimal number) out.new.items }
{
    out.extend_from_slice(text)?;
    let digits = format!(in *out.allocator(); "{number}")?;
    out.extend_from_slice(digits.as_bytes())
}
