// Why a line of a script is no command.

use crate::hexadecimal::{DigitsComplaint, complaint_of_key, complaint_of_value};
use crate::number::{NumberComplaint, complaint_of_number, number_of};
use crate::script_text::{ScriptLine, cut};
use crate::shown::Shown;
use std::fmt;

/// The most indices that `missing` may ask for.
pub const MOST_COUNTED: u64 = 1 << 16;

/// The words that stand behind the name of a command.
#[derive(Clone, Copy, Debug, PartialEq, Eq)]
pub enum Arguments {
    /// None.
    Nothing,
    /// INDEX.
    Index,
    /// KEY.
    Key,
    /// INDEX COUNT.
    Counted,
    /// INDEX KEY.
    Keyed,
    /// INDEX KEY VALUE.
    Record,
}

impl Arguments {
    // What stands behind the command of this name, if there is one.
    fn of(name: &[u8]) -> Option<Arguments> {
        match name {
            b"sync" | b"start" | b"reopen" | b"destroy" | b"ranges" | b"first" | b"last" => {
                Some(Arguments::Nothing)
            }
            b"get" | b"has" | b"all" | b"gap" | b"rangesfrom" | b"prune" => Some(Arguments::Index),
            b"getk" | b"hask" => Some(Arguments::Key),
            b"missing" => Some(Arguments::Counted),
            b"hasat" => Some(Arguments::Keyed),
            b"put" | b"putsync" | b"putstart" | b"multi" | b"multisync" | b"multistart" => {
                Some(Arguments::Record)
            }
            _ => None,
        }
    }

    // How many words these are.
    fn count(self) -> usize {
        match self {
            Arguments::Nothing => 0,
            Arguments::Index | Arguments::Key => 1,
            Arguments::Counted | Arguments::Keyed => 2,
            Arguments::Record => 3,
        }
    }
}

impl fmt::Display for Arguments {
    fn fmt<W: fmt::Write>(&self, f: &mut fmt::Formatter<W>) -> fmt::Result {
        f.write_str(match self {
            Arguments::Nothing => "no word",
            Arguments::Index => "one word, INDEX",
            Arguments::Key => "one word, KEY",
            Arguments::Counted => "two words, INDEX COUNT",
            Arguments::Keyed => "two words, INDEX KEY",
            Arguments::Record => "three words, INDEX KEY VALUE",
        })
    }
}

/// Why a line is no command. It is the first reason that a reader meets.
#[derive(Clone, Copy, Debug)]
pub enum LineComplaint<'a> {
    /// No LF stands behind the line.
    NotEnded,
    /// The line has no character.
    Empty,
    /// The line ends in CR LF.
    CarriageReturn,
    /// A space stands at an end of the line, or beside another one.
    Spaces,
    /// The first word names no command.
    Unknown(&'a [u8]),
    /// The command of this name has other words behind it, and here are so many.
    Words(&'a [u8], Arguments, usize),
    /// This word is no index.
    Index(&'a [u8], NumberComplaint),
    /// This word is no count, for it is no number.
    Count(&'a [u8], NumberComplaint),
    /// This word is a number above the greatest count.
    CountTooGreat(&'a [u8]),
    /// This word is no key.
    Key(&'a [u8], DigitsComplaint),
    /// This word is no value.
    Value(&'a [u8], DigitsComplaint),
}

/// What is wrong with a line of a script whose values have at most `max_value` bytes, if anything is.
pub fn complaint_of_line(line: ScriptLine<'_>, max_value: u32) -> Option<LineComplaint<'_>> {
    let text = line.text;
    if text.is_empty() {
        Some(LineComplaint::Empty)
    } else if text.ends_with(b"\r") {
        Some(LineComplaint::CarriageReturn)
    } else if has_lone_spaces(text) {
        complaint_of_words(text, max_value).or(complaint_of_end(line))
    } else {
        Some(LineComplaint::Spaces)
    }
}

// That the line is not ended, where it is not.
fn complaint_of_end(line: ScriptLine<'_>) -> Option<LineComplaint<'_>> {
    if line.is_ended {
        None
    } else {
        Some(LineComplaint::NotEnded)
    }
}

// Whether each space stands between two words.
fn has_lone_spaces(text: &[u8]) -> bool {
    let mut was_space = true;
    for byte in text {
        let is_space = *byte == b' ';
        if is_space && was_space {
            return false;
        }
        was_space = is_space;
    }
    !was_space
}

// What is wrong with words that are separated as they are to be.
fn complaint_of_words(text: &[u8], max_value: u32) -> Option<LineComplaint<'_>> {
    let (name, words) = match cut(text, b' ') {
        Some((name, words)) => (name, Some(words)),
        None => (text, None),
    };
    let Some(wanted) = Arguments::of(name) else {
        return Some(LineComplaint::Unknown(name));
    };
    let count = text.iter().filter(|b| **b == b' ').count();
    if count != wanted.count() {
        return Some(LineComplaint::Words(name, wanted, count));
    }
    match wanted {
        Arguments::Nothing => None,
        Arguments::Index => complaint_of_index_word(words?),
        Arguments::Key => complaint_of_key_word(words?),
        Arguments::Counted => complaint_of_counted(words?),
        Arguments::Keyed => complaint_of_keyed(words?),
        Arguments::Record => complaint_of_record(words?, max_value),
    }
}

fn complaint_of_index_word(word: &[u8]) -> Option<LineComplaint<'_>> {
    let complaint = complaint_of_number(word)?;
    Some(LineComplaint::Index(word, complaint))
}

fn complaint_of_count_word(word: &[u8]) -> Option<LineComplaint<'_>> {
    if let Some(complaint) = complaint_of_number(word) {
        return Some(LineComplaint::Count(word, complaint));
    }
    match number_of(word) {
        Some(0..=MOST_COUNTED) => None,
        _ => Some(LineComplaint::CountTooGreat(word)),
    }
}

fn complaint_of_key_word(word: &[u8]) -> Option<LineComplaint<'_>> {
    let complaint = complaint_of_key(word)?;
    Some(LineComplaint::Key(word, complaint))
}

fn complaint_of_value_word(word: &[u8], max_value: u32) -> Option<LineComplaint<'_>> {
    let complaint = complaint_of_value(word, max_value)?;
    Some(LineComplaint::Value(word, complaint))
}

// What is wrong with an index and a count.
fn complaint_of_counted(words: &[u8]) -> Option<LineComplaint<'_>> {
    let (index, count) = cut(words, b' ')?;
    complaint_of_index_word(index).or(complaint_of_count_word(count))
}

// What is wrong with an index and a key.
fn complaint_of_keyed(words: &[u8]) -> Option<LineComplaint<'_>> {
    let (index, key) = cut(words, b' ')?;
    complaint_of_index_word(index).or(complaint_of_key_word(key))
}

// What is wrong with the three words of a record.
fn complaint_of_record(words: &[u8], max_value: u32) -> Option<LineComplaint<'_>> {
    let (index, words) = cut(words, b' ')?;
    let (key, value) = cut(words, b' ')?;
    if let Some(complaint) = complaint_of_index_word(index) {
        return Some(complaint);
    }
    if let Some(complaint) = complaint_of_key_word(key) {
        return Some(complaint);
    }
    complaint_of_value_word(value, max_value)
}

impl fmt::Display for LineComplaint<'_> {
    fn fmt<W: fmt::Write>(&self, f: &mut fmt::Formatter<W>) -> fmt::Result {
        match self {
            LineComplaint::NotEnded => f.write_str("no line feed stands behind it"),
            LineComplaint::Empty => f.write_str("an empty line is no command"),
            LineComplaint::CarriageReturn => {
                f.write_str("it ends in CR LF, and a line ends in LF alone")
            }
            LineComplaint::Spaces => {
                f.write_str("one space stands between two words, and none at an end")
            }
            LineComplaint::Unknown(name) => write!(
                f,
                "\"{}\" is no command (archive_cli --help names them)",
                Shown(name)
            ),
            LineComplaint::Words(name, wanted, count) => {
                write!(f, "{} takes {wanted}, and here are {count}", Shown(name))
            }
            LineComplaint::Index(word, why) => write!(f, "\"{}\" is no index: {why}", Shown(word)),
            LineComplaint::Count(word, why) => write!(f, "\"{}\" is no count: {why}", Shown(word)),
            LineComplaint::CountTooGreat(word) => write!(
                f,
                "\"{}\" is no count: the greatest one is 65536",
                Shown(word)
            ),
            LineComplaint::Key(word, why) => write!(f, "\"{}\" is no key: {why}", Shown(word)),
            LineComplaint::Value(word, why) => write!(f, "\"{}\" is no value: {why}", Shown(word)),
        }
    }
}
