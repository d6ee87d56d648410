// Why a word is no number.

use std::fmt;

/// Why a word is no number: a decimal number of 64 bits in its shortest spelling.
#[derive(Clone, Copy, Debug, PartialEq, Eq)]
pub enum NumberComplaint {
    /// The word has no character.
    Empty,
    /// A character is no decimal digit.
    NotDecimal,
    /// The first digit is 0, and others follow.
    LeadingZero,
    /// The number does not fit into 64 bits.
    TooGreat,
}

/// What is wrong with a word that is to be a number, if anything is.
pub fn complaint_of_number(word: &[u8]) -> Option<NumberComplaint> {
    if word.is_empty() {
        Some(NumberComplaint::Empty)
    } else if !word.iter().all(|b| b.is_ascii_digit()) {
        Some(NumberComplaint::NotDecimal)
    } else if word.len() > 1 && word.starts_with(b"0") {
        Some(NumberComplaint::LeadingZero)
    } else if number_of(word).is_none() {
        Some(NumberComplaint::TooGreat)
    } else {
        None
    }
}

/// The number that decimal digits spell, if it fits.
pub(crate) fn number_of(digits: &[u8]) -> Option<u64> {
    match std::str::from_utf8(digits) {
        Ok(text) => text.parse::<u64>().ok(),
        Err(_) => None,
    }
}

impl fmt::Display for NumberComplaint {
    fn fmt<W: fmt::Write>(&self, f: &mut fmt::Formatter<W>) -> fmt::Result {
        f.write_str(match self {
            NumberComplaint::Empty => "a number has at least one digit",
            NumberComplaint::NotDecimal => "a number has decimal digits alone",
            NumberComplaint::LeadingZero => "a number has no leading zero",
            NumberComplaint::TooGreat => "the greatest number is 18446744073709551615",
        })
    }
}
