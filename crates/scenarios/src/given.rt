// What the next run is given: words, settings, a script, and calls that fail.
use crate::stage::Stage;
use crate::stop::{Stop, ok};
use archive_service::Settings;
use scenario_text::Step;
use std::alloc::Global;

/// The number at this place behind the first word of a step.
pub fn number(step: &Step, at: usize) -> Result<u64, Stop> {
    step.number(at).ok_or(Stop::Said("a number is missing"))
}

/// Gives the next run what the step says.
pub fn give(stage: &mut Stage, step: &Step) -> Result<String, Stop> {
    match step.word() {
        ">" => take_line(stage, step)?,
        "words" => stage.words = words_of(stage.alloc, step)?,
        "set" => set_number(&mut stage.settings, step.argument(0), number(step, 1)?)?,
        "input" => append_text(&mut stage.input, step.argument(0))?,
        "repeat" => repeat(stage, step)?,
        "fail" => stage.dev.fail_at(number(step, 0)?)?,
        _ => {
            let nth = number(step, 0)?;
            stage.dev.fuse_at(nth);
            stage.fuse = Some(nth);
        }
    }
    ok(stage.alloc)
}

// Appends a text many times.
fn repeat(stage: &mut Stage, step: &Step) -> Result<(), Stop> {
    let count = number(step, 0)? as usize;
    let mut text = Vec::new(stage.alloc);
    append_text(&mut text, step.argument(1))?;
    if let [byte] = text.as_slice() {
        let len = stage.input.len().saturating_add(count);
        stage.input.resize(len, *byte)?;
        return Ok(());
    }
    for _ in 0..count {
        stage.input.extend_from_slice(text.as_slice())?;
    }
    Ok(())
}

// Takes a line of the script, with the reply that it must get.
fn take_line(stage: &mut Stage, step: &Step) -> Result<(), Stop> {
    let mut separator: &[u8] = b"";
    for word in step.rest() {
        stage.input.extend_from_slice(separator)?;
        stage.input.extend_from_slice(word.as_bytes())?;
        separator = b" ";
    }
    stage.input.push(b'\n')?;
    if step.wanted.as_str() != "nothing" {
        stage.wanted.push(step.wanted.clone()?)?;
    }
    Ok(())
}

// The words of a step; two quotes are the empty word.
fn words_of(alloc: Global, step: &Step) -> Result<Vec<String>, Stop> {
    let mut words = Vec::new(alloc);
    for word in step.rest() {
        let text = if word.as_str() == "\"\"" {
            ""
        } else {
            word.as_str()
        };
        words.push(String::from_str(alloc, text)?)?;
    }
    Ok(words)
}

/// Changes the setting of this name.
pub fn set_number(settings: &mut Settings, name: &str, number: u64) -> Result<(), Stop> {
    match name {
        "write_buffer" => settings.write_buffer = number as usize,
        "replay_buffer" => settings.replay_buffer = number as usize,
        "per_section" => settings.limits.per_section = number,
        "value_target_size" => settings.value_target_size = number,
        "page_size" => match u16::try_from(number) {
            Ok(small) => settings.page_size = small,
            Err(_) => return Err(Stop::Said("the number is too great")),
        },
        "table_resize_frequency" => match u8::try_from(number) {
            Ok(small) => settings.table_resize_frequency = small,
            Err(_) => return Err(Stop::Said("the number is too great")),
        },
        _ => return set_small(settings, name, number),
    }
    Ok(())
}

// Changes a setting of 32 bits.
fn set_small(settings: &mut Settings, name: &str, number: u64) -> Result<(), Stop> {
    let Ok(small) = u32::try_from(number) else {
        return Err(Stop::Said("the number is too great"));
    };
    match name {
        "cache_pages" => settings.cache_pages = small,
        "max_value" => settings.max_value = small,
        "sections" => settings.limits.sections = small,
        "table_initial_size" => settings.table_initial_size = small,
        "table_resize_chunk_size" => settings.table_resize_chunk_size = small,
        _ => return Err(Stop::Said("no such setting")),
    }
    Ok(())
}

/// Appends what a word spells, of which a backslash begins a byte that a word cannot have.
pub fn append_text(out: &mut Vec<u8>, text: &str) -> Result<(), Stop> {
    let mut pieces = text.split('\\');
    if let Some(plain) = pieces.next() {
        out.extend_from_slice(plain.as_bytes())?;
    }
    for piece in pieces {
        append_escape(out, piece.as_bytes())?;
    }
    Ok(())
}

// Appends the byte whose name the piece begins with, and the rest of the piece.
fn append_escape(out: &mut Vec<u8>, piece: &[u8]) -> Result<(), Stop> {
    let (byte, rest) = match piece {
        [b's', rest @ ..] => (b' ', rest),
        [b'n', rest @ ..] => (b'\n', rest),
        [b'r', rest @ ..] => (b'\r', rest),
        [b't', rest @ ..] => (b'\t', rest),
        [b'0', rest @ ..] => (0, rest),
        [b'x', high, low, rest @ ..] => (byte_of(*high, *low)?, rest),
        _ => return Err(Stop::Said("no such escape")),
    };
    out.push(byte)?;
    out.extend_from_slice(rest)?;
    Ok(())
}

// The byte of two hexadecimal digits.
fn byte_of(high: u8, low: u8) -> Result<u8, Stop> {
    let mut bytes = [0u8; 1];
    match hex::decode_to_slice(&[high, low], &mut bytes) {
        Ok(()) => Ok(bytes[0]),
        Err(_) => Err(Stop::Said("no hexadecimal digits")),
    }
}
