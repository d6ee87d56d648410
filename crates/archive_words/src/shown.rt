// Bytes that somebody wrote, as a person reads them.

use std::fmt;

// How many bytes are shown.
const MOST_SHOWN: usize = 64;

/// Bytes as they stand in a line for people: at most 64 of them, each that is no printable character as `\x` and two digits.
#[derive(Clone, Copy, Debug)]
pub struct Shown<'a>(pub &'a [u8]);

impl fmt::Display for Shown<'_> {
    fn fmt<W: fmt::Write>(&self, f: &mut fmt::Formatter<W>) -> fmt::Result {
        let Shown(bytes) = *self;
        for byte in bytes.iter().take(MOST_SHOWN) {
            show_byte(*byte, f)?;
        }
        if bytes.len() > MOST_SHOWN {
            f.write_str("..")?;
        }
        Ok(())
    }
}

fn show_byte<W: fmt::Write>(byte: u8, f: &mut fmt::Formatter<W>) -> fmt::Result {
    match byte {
        b'\\' => f.write_str("\\\\"),
        b' '..=b'~' => f.write_char(char::from(byte)),
        _ => write!(f, "\\x{byte:02x}"),
    }
}
