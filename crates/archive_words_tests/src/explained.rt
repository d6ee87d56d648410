// What is wrong with lines and words.
use crate::said::Said;
use archive_words::{ScriptLine, complaint_of_line, complaint_of_words, line_at};
use blob_device::DevError;
use scenario_text::Step;
use std::alloc::Global;

/// How many bytes a value of a script has at most.
const MAX_VALUE: u32 = 2;

/// What is wrong with a line that is ended.
pub fn line(alloc: Global, step: &Step) -> Result<Said, DevError> {
    let Some(text) = step.bytes(alloc, 0)? else {
        return Ok(Said::Refused("these are no bytes"));
    };
    let line = ScriptLine {
        text: &text,
        is_ended: true,
    };
    judged(alloc, line)
}

/// What is wrong with a line of a script.
pub fn line_of_script(alloc: Global, step: &Step) -> Result<Said, DevError> {
    let (Some(number), Some(script)) = (step.number(0), step.bytes(alloc, 1)?) else {
        return Ok(Said::Refused("these are no number and bytes"));
    };
    match line_at(&script, number) {
        Some(line) => judged(alloc, line),
        None => Ok(Said::Word("none")),
    }
}

// What is wrong with this line.
fn judged(alloc: Global, line: ScriptLine<'_>) -> Result<Said, DevError> {
    match complaint_of_line(line, MAX_VALUE) {
        Some(complaint) => Ok(Said::Text(format!(in alloc; "{complaint}")?)),
        None => Ok(Said::Word("-")),
    }
}

/// What is wrong with the words of a command line.
pub fn words(alloc: Global, step: &Step) -> Result<Said, DevError> {
    let mut words = Vec::new(alloc);
    for word in step.rest() {
        let text = match word.as_str() {
            "\"\"" => "",
            text => text,
        };
        words.push(String::from_str(alloc, text)?)?;
    }
    match complaint_of_words(&words) {
        Some(complaint) => Ok(Said::Text(format!(in alloc; "{complaint}")?)),
        None => Ok(Said::Word("-")),
    }
}
