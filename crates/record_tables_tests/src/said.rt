// What a step says.
use std::alloc::{AllocError, Global};
use std::fmt::Display;

/// The text, and that the plain lists say something else, where they do.
pub fn judged(alloc: Global, same: bool, text: String) -> Result<String, AllocError> {
    if same {
        return Ok(text);
    }
    let said = text.as_str();
    format!(in alloc; "{said}, not as the plain lists")
}

/// Words one behind the other, or `none`.
pub fn listed<T: Display>(alloc: Global, words: &[T]) -> Result<String, AllocError> {
    if words.is_empty() {
        return String::from_str(alloc, "none");
    }
    let mut text = String::new(alloc);
    for (at, word) in words.iter().enumerate() {
        if at > 0 {
            text.push(' ')?;
        }
        write!(&mut text, "{word}")?;
    }
    Ok(text)
}

/// Pairs of numbers in the same way, each with a mark between both.
pub fn paired<T: Display, U: Display>(
    alloc: Global,
    pairs: &[(T, U)],
    mark: &str,
) -> Result<String, AllocError> {
    let mut words = Vec::new(alloc);
    for (left, right) in pairs {
        words.push(format!(in alloc; "{left}{mark}{right}")?)?;
    }
    listed(alloc, words.as_slice())
}
