// Why the words of a command line are not of the form that is wanted.

use crate::number::{NumberComplaint, complaint_of_number, number_of};
use std::fmt;

/// The most indices that a section may have room for.
pub const MOST_ITEMS: u64 = 1 << 20;

/// The most records that are made.
pub const MOST_MADE: u64 = 100_000;

/// Why the words are neither `DIR prunable ITEMS` nor these with `make N` behind them. It is the first word
/// that is wrong.
#[derive(Clone, Copy, Debug)]
pub enum WordsComplaint<'a> {
    /// There are no words.
    NoFolder,
    /// The first word is empty.
    EmptyFolder,
    /// The only word begins with a dash and is no option.
    UnknownOption(&'a str),
    /// The second word is missing.
    NoKind,
    /// The second word names no kind of archive.
    UnknownKind(&'a str),
    /// The third word is missing.
    NoItems,
    /// The third word is no number.
    NoNumber(&'a str, NumberComplaint),
    /// The third word is a number out of range.
    OutOfRange(&'a str),
    /// The fourth word is not `make`.
    NotMake(&'a str),
    /// The fifth word is missing.
    NoCount,
    /// The fifth word is no number.
    NoCountNumber(&'a str, NumberComplaint),
    /// The fifth word is a number out of range.
    CountOutOfRange(&'a str),
    /// A sixth word stands there.
    Further(&'a str),
}

/// What is wrong with the words of a command line, if anything is.
pub fn complaint_of_words(words: &[String]) -> Option<WordsComplaint<'_>> {
    match words {
        [] => Some(WordsComplaint::NoFolder),
        [folder, ..] if folder.is_empty() => Some(WordsComplaint::EmptyFolder),
        [option] if is_option(option.as_str()) => {
            Some(WordsComplaint::UnknownOption(option.as_str()))
        }
        [_] => Some(WordsComplaint::NoKind),
        [_, kind, ..] if kind.as_str() != "prunable" => {
            Some(WordsComplaint::UnknownKind(kind.as_str()))
        }
        [_, _] => Some(WordsComplaint::NoItems),
        [_, _, items, others @ ..] => {
            complaint_of_items(items.as_str()).or(complaint_of_others(others))
        }
    }
}

// What is wrong with the words behind ITEMS.
fn complaint_of_others(words: &[String]) -> Option<WordsComplaint<'_>> {
    match words {
        [] => None,
        [make, ..] if make.as_str() != "make" => Some(WordsComplaint::NotMake(make.as_str())),
        [_] => Some(WordsComplaint::NoCount),
        [_, count] => complaint_of_count(count.as_str()),
        [_, count, further, ..] => {
            complaint_of_count(count.as_str()).or(Some(WordsComplaint::Further(further.as_str())))
        }
    }
}

// Whether a word looks like an option. A dash alone is a folder's place.
fn is_option(word: &str) -> bool {
    word.starts_with("-") && word != "-"
}

fn complaint_of_items(word: &str) -> Option<WordsComplaint<'_>> {
    if let Some(complaint) = complaint_of_number(word.as_bytes()) {
        return Some(WordsComplaint::NoNumber(word, complaint));
    }
    match number_of(word.as_bytes()) {
        Some(1..=MOST_ITEMS) => None,
        _ => Some(WordsComplaint::OutOfRange(word)),
    }
}

fn complaint_of_count(word: &str) -> Option<WordsComplaint<'_>> {
    if let Some(complaint) = complaint_of_number(word.as_bytes()) {
        return Some(WordsComplaint::NoCountNumber(word, complaint));
    }
    match number_of(word.as_bytes()) {
        Some(1..=MOST_MADE) => None,
        _ => Some(WordsComplaint::CountOutOfRange(word)),
    }
}

impl fmt::Display for WordsComplaint<'_> {
    fn fmt<W: fmt::Write>(&self, f: &mut fmt::Formatter<W>) -> fmt::Result {
        match self {
            WordsComplaint::NoFolder => f.write_str("DIR is missing, the folder of the archive"),
            WordsComplaint::EmptyFolder => {
                f.write_str("DIR is empty: it is a folder, or - for memory")
            }
            WordsComplaint::UnknownOption(word) => write!(f, "{word:?} is no option"),
            WordsComplaint::NoKind => {
                f.write_str("the kind of the archive is missing behind DIR: prunable")
            }
            WordsComplaint::UnknownKind(word) => {
                write!(f, "{word:?} is no kind of archive: there is only prunable")
            }
            WordsComplaint::NoItems => {
                f.write_str("ITEMS is missing behind prunable: a number from 1 to 1048576")
            }
            WordsComplaint::NoNumber(word, why) => write!(f, "{word:?} is no ITEMS: {why}"),
            WordsComplaint::OutOfRange(word) => {
                write!(f, "{word:?} is no ITEMS: it is from 1 to 1048576")
            }
            WordsComplaint::NotMake(word) => write!(
                f,
                "{word:?} is one word too many: behind ITEMS may stand make N"
            ),
            WordsComplaint::NoCount => {
                f.write_str("N is missing behind make: a number from 1 to 100000")
            }
            WordsComplaint::NoCountNumber(word, why) => write!(f, "{word:?} is no N: {why}"),
            WordsComplaint::CountOutOfRange(word) => {
                write!(f, "{word:?} is no N: it is from 1 to 100000")
            }
            WordsComplaint::Further(word) => write!(f, "{word:?} is one word too many"),
        }
    }
}
