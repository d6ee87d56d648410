// Why a word is no key, or no value.

use std::fmt;

// How many digits a key has.
const KEY_DIGITS: usize = 16;

/// Why a word is no key, or no value.
#[derive(Clone, Copy, Debug, PartialEq, Eq)]
pub enum DigitsComplaint {
    /// A value that is empty is written as a dash.
    Empty,
    /// A character is no lower-case hexadecimal digit.
    NotHexadecimal,
    /// A key of so many digits, where it has 16.
    KeyLength(usize),
    /// Half a byte: the number of digits is odd.
    Odd(usize),
    /// A value of so many bytes, and the most that it may have.
    TooLong(usize, u32),
}

/// What is wrong with a word that is to be a key, if anything is.
pub fn complaint_of_key(word: &[u8]) -> Option<DigitsComplaint> {
    if !are_digits(word) {
        Some(DigitsComplaint::NotHexadecimal)
    } else if word.len() != KEY_DIGITS {
        Some(DigitsComplaint::KeyLength(word.len()))
    } else {
        None
    }
}

/// What is wrong with a word that is to be a value of at most `max_value` bytes, if anything is.
pub fn complaint_of_value(word: &[u8], max_value: u32) -> Option<DigitsComplaint> {
    let bytes = word.len() / 2;
    if word == b"-".as_slice() {
        None
    } else if word.is_empty() {
        Some(DigitsComplaint::Empty)
    } else if !are_digits(word) {
        Some(DigitsComplaint::NotHexadecimal)
    } else if word.len() % 2 != 0 {
        Some(DigitsComplaint::Odd(word.len()))
    } else if bytes > max_value as usize {
        Some(DigitsComplaint::TooLong(bytes, max_value))
    } else {
        None
    }
}

fn are_digits(word: &[u8]) -> bool {
    word.iter().all(|b| matches!(*b, b'0'..=b'9' | b'a'..=b'f'))
}

impl fmt::Display for DigitsComplaint {
    fn fmt<W: fmt::Write>(&self, f: &mut fmt::Formatter<W>) -> fmt::Result {
        match self {
            DigitsComplaint::Empty => f.write_str("an empty value is written as -"),
            DigitsComplaint::NotHexadecimal => {
                f.write_str("its digits are 0 to 9 and a to f alone")
            }
            DigitsComplaint::KeyLength(digits) => write!(
                f,
                "a key has 16 digits, and not {digits}"
            ),
            DigitsComplaint::Odd(digits) => {
                write!(f, "a byte has two digits, and these are {digits}")
            }
            DigitsComplaint::TooLong(bytes, most) => {
                write!(f, "a value has at most {most} bytes, and not {bytes}")
            }
        }
    }
}
