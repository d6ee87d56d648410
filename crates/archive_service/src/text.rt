// The texts of replies.
ghost use Rattle.std.specs.Prelude.{◌++◌, codes};
ghost use Rattle.std.specs.Fmt.{decimal};
ghost use Rattle.archives.specs.Machine.{replied};
ghost use Rattle.hex.specs.Hex.{encode_lower};
ghost use Rattle.archive_service.specs.Texts.{bad_line_text, number_text, reply_text, run_text, value_text, words_text};
ghost use Rattle.archive_service.specs.Writing.{Appends, WritesText};

use crate::ScriptError;
use crate::error_text::append_with;
use archives::Reply;
use std::alloc::AllocError;
use value_codec::ByteValue;

/// Appends the line of a reply, with its LF.
pub fn write_reply(reply: &Reply<ByteValue>, out: &mut Vec<u8>) -> Result<(), ScriptError>
    ensures { WritesText result out.old.items
        (reply_text (replied (λ v. v) reply.now)) out.new.items }
{
    let before = out.len();
    match append_reply(reply, out) {
        Ok(()) => Ok(()),
        Err(_) => {
            out.truncate(before);
            Err(ScriptError::Mem)
        }
    }
}

/// Appends the line that names a bad line of a script by its number.
pub fn write_bad_line(number: u64, out: &mut Vec<u8>) -> Result<(), ScriptError>
    ensures { WritesText result out.old.items (bad_line_text number) out.new.items }
{
    let line = format!(in *out.allocator(); "error line {number}\n")?;
    out.extend_from_slice(line.as_bytes())?;
    Ok(())
}

fn append_reply(reply: &Reply<ByteValue>, out: &mut Vec<u8>) -> Result<(), AllocError>
    ensures { Appends result out.old.items (reply_text (replied (λ v. v) reply.now)) out.new.items }
{
    match reply {
        Reply::Done => out.extend_from_slice(b"ok\n"),
        Reply::Value(None) => out.extend_from_slice(b"none\n"),
        Reply::Value(Some(value)) => append_value_line(value.as_bytes(), out),
        Reply::Values(None) => out.extend_from_slice(b"none\n"),
        Reply::Values(Some(values)) => append_values(values.as_slice(), out),
        Reply::Flag(true) => out.extend_from_slice(b"yes\n"),
        Reply::Flag(false) => out.extend_from_slice(b"no\n"),
        Reply::Gap(end, next) => append_gap(*end, *next, out),
        Reply::Items(numbers) => append_items(numbers.as_slice(), out),
        Reply::Ranges(runs) => append_ranges(runs.as_slice(), out),
        Reply::Index(None) => out.extend_from_slice(b"none\n"),
        Reply::Index(Some(index)) => append_index(*index, out),
        Reply::Closed => out.extend_from_slice(b"closed\n"),
    }
}

fn append_values(values: &[ByteValue], out: &mut Vec<u8>) -> Result<(), AllocError>
    ensures { Appends result out.old.items (codes "values" ++ words_text value_text values.now
        ++ codes "\n") out.new.items }
{
    out.extend_from_slice(b"values")?;
    for value in values {
        out.extend_from_slice(b" ")?;
        append_value(value.as_bytes(), out)?;
    }
    out.extend_from_slice(b"\n")
}

fn append_gap(end: Option<u64>, next: Option<u64>, out: &mut Vec<u8>) -> Result<(), AllocError>
    ensures { Appends result out.old.items (codes "gap " ++ number_text end ++ codes " "
        ++ number_text next ++ codes "\n") out.new.items }
{
    out.extend_from_slice(b"gap ")?;
    append_number(end, out)?;
    out.extend_from_slice(b" ")?;
    append_number(next, out)?;
    out.extend_from_slice(b"\n")
}

fn append_number(number: Option<u64>, out: &mut Vec<u8>) -> Result<(), AllocError>
    ensures { Appends result out.old.items (number_text number) out.new.items }
{
    match number {
        Some(number) => append_with(b"", number, out),
        None => out.extend_from_slice(b"-"),
    }
}

fn append_items(numbers: &[u64], out: &mut Vec<u8>) -> Result<(), AllocError>
    ensures { Appends result out.old.items (codes "items" ++ words_text decimal numbers.now
        ++ codes "\n") out.new.items }
{
    out.extend_from_slice(b"items")?;
    for number in numbers {
        append_with(b" ", *number, out)?;
    }
    out.extend_from_slice(b"\n")
}

fn append_ranges(runs: &[(u64, u64)], out: &mut Vec<u8>) -> Result<(), AllocError>
    ensures { Appends result out.old.items (codes "ranges" ++ words_text run_text runs.now
        ++ codes "\n") out.new.items }
{
    out.extend_from_slice(b"ranges")?;
    for (first, last) in runs {
        append_with(b" ", *first, out)?;
        append_with(b"-", *last, out)?;
    }
    out.extend_from_slice(b"\n")
}

fn append_index(index: u64, out: &mut Vec<u8>) -> Result<(), AllocError>
    ensures { Appends result out.old.items (codes "index " ++ decimal index
        ++ codes "\n") out.new.items }
{
    append_with(b"index ", index, out)?;
    out.extend_from_slice(b"\n")
}

fn append_value_line(bytes: &[u8], out: &mut Vec<u8>) -> Result<(), AllocError>
    ensures { Appends result out.old.items (codes "value " ++ value_text bytes.now
        ++ codes "\n") out.new.items }
{
    out.extend_from_slice(b"value ")?;
    append_value(bytes, out)?;
    out.extend_from_slice(b"\n")
}

fn append_value(bytes: &[u8], out: &mut Vec<u8>) -> Result<(), AllocError>
    ensures { Appends result out.old.items (value_text bytes.now) out.new.items }
{
    if bytes.is_empty() {
        out.extend_from_slice(b"-")
    } else {
        append_hex(bytes, out)
    }
}

pub(crate) fn append_hex(bytes: &[u8], out: &mut Vec<u8>) -> Result<(), AllocError>
    ensures { Appends result out.old.items (encode_lower bytes.now) out.new.items }
{
    let text = hex::encode(*out.allocator(), bytes)?;
    out.extend_from_slice(text.as_bytes())
}
