//! The texts of commands, written out plainly, and whether a text begins with one. It is slow, and made to be read
//! beside the definitions: the reader of scripts is compared with it.
ghost use Rattle.std.specs.Prelude.{◌≡◌, ◌↔◌, ◌++◌, ◌∷◌, IfOk, IsTrue, map, string_bytes};
ghost use Rattle.hex.specs.Hex.{encode_lower};
ghost use Rattle.archives.specs.Machine.{asked};
ghost use Rattle.value_codec.specs.Keys.{key8_bytes};
ghost use Rattle.archive_service.specs.Reading.{record_text};
ghost use Rattle.archive_service.specs.Texts.{line_of, script_text, value_text};
ghost use Rattle.archive_service.specs.Writing.{BeginsWith};

use archives::Command;
use std::alloc::{AllocError, Global};
use value_codec::{ByteValue, Key, Key8};

/// The line of a command, without its LF.
#[tactic(auto, unfolding(crate::specs::Texts::line_of))]
pub fn line_text(alloc: Global, command: &Command<Key8, ByteValue>) -> Result<String, AllocError>
    ensures { IfOk result (λ line. string_bytes line
        ≡ line_of (asked key8_bytes (λ v. v) command.now)) }
{
    match command {
        Command::Put(index, key, value) => record_line(alloc, "put", *index, key, value),
        Command::PutSync(index, key, value) => record_line(alloc, "putsync", *index, key, value),
        Command::PutStart(index, key, value) => record_line(alloc, "putstart", *index, key, value),
        Command::Multi(index, key, value) => record_line(alloc, "multi", *index, key, value),
        Command::MultiSync(index, key, value) => record_line(
            alloc,
            "multisync",
            *index,
            key,
            value,
        ),
        Command::MultiStart(index, key, value) => record_line(
            alloc,
            "multistart",
            *index,
            key,
            value,
        ),
        Command::Get(index) => format!(in alloc; "get {index}"),
        Command::GetKey(key) => key_line(alloc, "getk", key),
        Command::Has(index) => format!(in alloc; "has {index}"),
        Command::HasKey(key) => key_line(alloc, "hask", key),
        Command::HasAt(index, key) => {
            let name = format!(in alloc; "hasat {index}")?;
            key_line(alloc, name.as_str(), key)
        }
        Command::All(index) => format!(in alloc; "all {index}"),
        Command::Gap(index) => format!(in alloc; "gap {index}"),
        Command::Missing(index, count) => format!(in alloc; "missing {index} {count}"),
        Command::Ranges => String::from_str(alloc, "ranges"),
        Command::RangesFrom(index) => format!(in alloc; "rangesfrom {index}"),
        Command::First => String::from_str(alloc, "first"),
        Command::Last => String::from_str(alloc, "last"),
        Command::Sync => String::from_str(alloc, "sync"),
        Command::Start => String::from_str(alloc, "start"),
        Command::Prune(index) => format!(in alloc; "prune {index}"),
        Command::Reopen => String::from_str(alloc, "reopen"),
        Command::Destroy => String::from_str(alloc, "destroy"),
    }
}

// The line of a command of this name that puts a record.
fn record_line(
    alloc: Global,
    name: &str,
    index: u64,
    key: &Key8,
    value: &ByteValue,
) -> Result<String, AllocError>
    ensures { IfOk result (λ line. string_bytes line
        ≡ name.now ++ 32 ∷ record_text (index, key8_bytes key.now, value.now)) }
{
    let record = record_text(alloc, index, key, value)?;
    format!(in alloc; "{name} {record}")
}

// The line that ends in a key behind these words.
fn key_line(alloc: Global, words: &str, key: &Key8) -> Result<String, AllocError>
    ensures { IfOk result (λ line. string_bytes line
        ≡ words.now ++ 32 ∷ encode_lower (key8_bytes key.now)) }
{
    let key = hex::encode(alloc, key.as_bytes())?;
    format!(in alloc; "{words} {key}")
}

/// The words of a record.
fn record_text(
    alloc: Global,
    index: u64,
    key: &Key8,
    value: &ByteValue,
) -> Result<String, AllocError>
    ensures { IfOk result (λ text. string_bytes text
        ≡ record_text (index, key8_bytes key.now, value.now)) }
{
    let key = hex::encode(alloc, key.as_bytes())?;
    let value = value_word(alloc, value.as_bytes())?;
    format!(in alloc; "{index} {key} {value}")
}

/// A value's word.
pub fn value_word(alloc: Global, value: &[u8]) -> Result<String, AllocError>
    ensures { IfOk result (λ word. string_bytes word ≡ value_text value.now) }
{
    if value.is_empty() {
        String::from_str(alloc, "-")
    } else {
        hex::encode(alloc, value)
    }
}

/// The script of commands.
pub fn whole_text(
    alloc: Global,
    commands: &[Command<Key8, ByteValue>],
) -> Result<String, AllocError>
    ensures { IfOk result (λ text. string_bytes text
        ≡ script_text (map (asked key8_bytes (λ v. v)) commands.now)) }
{
    let mut text = String::new(alloc);
    for command in commands {
        let line = line_text(alloc, command)?;
        text.push_str(line.as_str())?;
        text.push_str("\n")?;
    }
    Ok(text)
}

/// Whether a text begins with the line of this command and its LF.
pub fn begins_with(
    alloc: Global,
    text: &[u8],
    command: &Command<Key8, ByteValue>,
) -> Result<bool, AllocError>
    ensures { IfOk result (λ yes. IsTrue yes ↔ BeginsWith text.now (line_of (asked key8_bytes
        (λ v. v) command.now))) }
{
    let mut line = line_text(alloc, command)?;
    line.push_str("\n")?;
    Ok(text.starts_with(line.as_bytes()))
}
