// Steps that look records up.
ghost use Rattle.archives_tests.specs.Over.{IsOver};

use crate::changes::key_at;
use crate::error_words::ErrorWords;
use crate::run::Opens;
use crate::sample::Sample;
use archives::{Entries, Error, Identifier};
use blob_device::Memory;
use scenario_text::Step;
use std::alloc::{AllocError, Global};
use value_codec::Key;

/// What the archive replies to a lookup; none where the step is none.
pub fn looked<A: Opens>(
    alloc: Global,
    dev: &mut Memory,
    archive: &A,
    step: &Step,
) -> Result<Option<String>, AllocError>
    requires { IsOver A.meaning.IsUsable archive.now dev.old }
    ensures { IsOver A.meaning.IsUsable archive.now dev.new }
{
    match (step.word(), step.number(0)) {
        ("get" | "has", Some(index)) => Ok(Some(at_index(alloc, dev, archive, step, index)?)),
        ("has_index", Some(index)) => { Ok(Some(flag_text(alloc, Ok(archive.has_index(index)))?)) }
        ("entries", Some(index)) => Ok(Some(entries_text(alloc, archive.entries(dev, index))?)),
        ("floor", _) => Ok(Some(format!(in alloc; "{}", archive.lowest())?)),
        ("getk" | "hask", _) => match key_at(alloc, step, 0)? {
            Some(key) => Ok(Some(under_key(alloc, dev, archive, step, &key)?)),
            None => Ok(None),
        },
        _ => Ok(None),
    }
}

// What it replies to a lookup by an index.
fn at_index<'a, A: Opens>(
    alloc: Global,
    dev: &mut Memory,
    archive: &'a A,
    step: &Step,
    index: u64,
) -> Result<String, AllocError>
    requires { IsOver A.meaning.IsUsable archive.now dev.old }
    ensures { IsOver A.meaning.IsUsable archive.now dev.new }
{
    let identifier: Identifier<'a, A::Key> = Identifier::Index(index);
    if step.word() == "get" {
        value_text(alloc, archive.get(dev, identifier))
    } else {
        flag_text(alloc, archive.has(dev, identifier))
    }
}

// What it replies to a lookup by a key.
fn under_key<A: Opens>(
    alloc: Global,
    dev: &mut Memory,
    archive: &A,
    step: &Step,
    key: &A::Key,
) -> Result<String, AllocError>
    requires { IsOver A.meaning.IsUsable archive.now dev.old }
    ensures { IsOver A.meaning.IsUsable archive.now dev.new }
{
    if step.word() == "getk" {
        value_text(alloc, archive.get(dev, Identifier::Key(key)))
    } else {
        flag_text(alloc, archive.has(dev, Identifier::Key(key)))
    }
}

// The reply that is a value.
fn value_text(alloc: Global, found: Result<Option<Sample>, Error>) -> Result<String, AllocError> {
    match found {
        Ok(None) => String::from_str(alloc, "none"),
        Ok(Some(value)) => {
            let bytes = bytes_text(alloc, value.bytes.as_slice())?;
            format!(in alloc; "value {}", bytes.as_str())
        }
        Err(error) => format!(in alloc; "error {}", ErrorWords(&error)),
    }
}

// Bytes in hexadecimal, or a dash where there is none.
fn bytes_text(alloc: Global, bytes: &[u8]) -> Result<String, AllocError> {
    if bytes.is_empty() {
        return String::from_str(alloc, "-");
    }
    hex::encode(alloc, bytes)
}

// The reply that is a list of keys with values.
fn entries_text<K: Key>(
    alloc: Global,
    found: Result<Option<Entries<K, Sample>>, Error>,
) -> Result<String, AllocError> {
    match found {
        Ok(None) => String::from_str(alloc, "none"),
        Ok(Some(entries)) => {
            let mut said = String::new(alloc);
            for (key, value) in entries.as_slice() {
                let between = if said.is_empty() { "" } else { " / " };
                let key = hex::encode(alloc, key.as_bytes())?;
                let bytes = bytes_text(alloc, value.bytes.as_slice())?;
                write!(&mut said, "{between}{} {}", key.as_str(), bytes.as_str())?;
            }
            Ok(said)
        }
        Err(error) => format!(in alloc; "error {}", ErrorWords(&error)),
    }
}

// The reply that is yes or no.
fn flag_text(alloc: Global, holds: Result<bool, Error>) -> Result<String, AllocError> {
    match holds {
        Ok(true) => String::from_str(alloc, "yes"),
        Ok(false) => String::from_str(alloc, "no"),
        Err(error) => format!(in alloc; "error {}", ErrorWords(&error)),
    }
}
