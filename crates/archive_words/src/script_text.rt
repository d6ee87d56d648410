// The lines of a script.

/// A line of a script.
#[derive(Clone, Copy, Debug)]
pub struct ScriptLine<'a> {
    /// Its bytes, without its LF.
    pub text: &'a [u8],
    /// Whether an LF stands behind it.
    pub is_ended: bool,
}

/// The lines of a script, gone over once from the first one on.
#[derive(Clone, Copy, Debug)]
pub struct ScriptLines<'a> {
    // the script from this line on
    rest: &'a [u8],
    // the number of that line, counted from 1
    number: u64,
}

impl<'a> ScriptLines<'a> {
    /// The lines of this script, at the first one.
    pub fn new(script: &'a [u8]) -> ScriptLines<'a> {
        ScriptLines {
            rest: script,
            number: 1,
        }
    }

    /// Goes on to the line of this number, counted from 1, if there is one. It does not go back.
    pub fn go_to(&mut self, number: u64) -> Option<ScriptLine<'a>> {
        if number < self.number {
            return None;
        }
        for passed in self.number..number {
            let (_, behind) = cut(self.rest, b'\n')?;
            self.rest = behind;
            self.number = passed.saturating_add(1);
        }
        first_line(self.rest)
    }
}

/// The line of this number, counted from 1, if there is one.
pub fn line_at(script: &[u8], number: u64) -> Option<ScriptLine<'_>> {
    ScriptLines::new(script).go_to(number)
}

// The line with which a text begins, if it has one.
fn first_line(text: &[u8]) -> Option<ScriptLine<'_>> {
    match cut(text, b'\n') {
        Some((line, _)) => Some(ScriptLine {
            text: line,
            is_ended: true,
        }),
        None if text.is_empty() => None,
        None => Some(ScriptLine {
            text,
            is_ended: false,
        }),
    }
}

/// The bytes before the first such byte, and those behind it.
pub(crate) fn cut(text: &[u8], byte: u8) -> Option<(&[u8], &[u8])> {
    match text.iter().position(|b| *b == byte) {
        Some(at) => Some((&text[..at], &text[at + 1..])),
        None => None,
    }
}
