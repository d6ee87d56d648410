// Scenarios, and how a text is read as some.
use std::alloc::{AllocError, Global};
use thiserror::Error;

/// What marks the line that begins a scenario.
const HEADING: &str = "==";

/// What stands between the words of a step and what it must say.
const ARROW: &str = "=>";

/// What a step must say where its line does not tell.
const USUAL: &str = "ok";

/// A step of a scenario.
#[derive(Debug, Drop)]
pub struct Step {
    /// The number of its line in the file; the first line is 1.
    pub line: u64,
    /// Its words, of which the first names the command.
    pub words: Vec<String>,
    /// What it must say.
    pub wanted: String,
}

/// A scenario: a sentence, and the steps that show it.
#[derive(Debug, Drop)]
pub struct Scenario {
    /// The sentence that it shows.
    pub name: String,
    /// Its steps, in their order.
    pub steps: Vec<Step>,
}

/// Why a text was not read as scenarios.
#[derive(Debug, Drop, Error)]
pub enum ReadError {
    /// There was no memory.
    #[error("out of memory")]
    Mem(#[from(alloc)] AllocError),
    /// The line with this number is a step and no scenario was begun.
    #[error("line {0} is a step of no scenario")]
    NoScenario(u64),
}

impl Step {
    fn new(alloc: Global, line: u64, text: &str) -> Result<Step, AllocError> {
        let (command, wanted) = text.split_once(ARROW).unwrap_or((text, USUAL));
        let mut words = Vec::new(alloc);
        for word in command.split_whitespace() {
            words.push(String::from_str(alloc, word)?)?;
        }
        let wanted = String::from_str(alloc, wanted.trim())?;
        Ok(Step {
            line,
            words,
            wanted,
        })
    }

    /// Its first word; empty where it has none.
    pub fn word(&self) -> &str {
        self.words.first().map_or("", |word| word.as_str())
    }

    /// The words behind the first one.
    pub fn rest(&self) -> &[String] {
        self.words.get(1..).unwrap_or(&[])
    }

    /// The word at this place behind the first one; empty where there is none.
    pub fn argument(&self, at: usize) -> &str {
        self.rest().get(at).map_or("", |word| word.as_str())
    }

    /// The word at this place behind the first one, as a decimal number.
    pub fn number(&self, at: usize) -> Option<u64> {
        self.argument(at).parse::<u64>().ok()
    }

    /// The word at this place behind the first one, as bytes in hexadecimal, of which `-` spells none.
    pub fn bytes(&self, alloc: Global, at: usize) -> Result<Option<Vec<u8>>, AllocError> {
        let word = self.argument(at);
        if word == "-" {
            return Ok(Some(Vec::new(alloc)));
        }
        match hex::decode(alloc, word.as_bytes()) {
            Ok(bytes) => Ok(Some(bytes)),
            Err(hex::FromHexError::OutOfMemory) => Err(AllocError),
            Err(_) => Ok(None),
        }
    }
}

/// The scenarios of a text, in their order.
pub fn scenarios_in(alloc: Global, text: &str) -> Result<Vec<Scenario>, ReadError> {
    let mut scenarios = Vec::new(alloc);
    let mut number = 0_u64;
    for line in text.lines() {
        number = number.saturating_add(1);
        let line = line.trim();
        if line.is_empty() || line.starts_with('#') {
            continue;
        }
        take_line(alloc, &mut scenarios, number, line)?;
    }
    Ok(scenarios)
}

// Takes a line that says something: a heading begins a scenario, and any other line is a step of the last one.
fn take_line(
    alloc: Global,
    scenarios: &mut Vec<Scenario>,
    number: u64,
    line: &str,
) -> Result<(), ReadError> {
    if let Some(name) = line.strip_prefix(HEADING) {
        let name = String::from_str(alloc, name.trim())?;
        let steps = Vec::new(alloc);
        scenarios.push(Scenario { name, steps })?;
        return Ok(());
    }
    let step = Step::new(alloc, number, line)?;
    match scenarios.last_mut() {
        Some(scenario) => scenario.steps.push(step)?,
        None => return Err(ReadError::NoScenario(number)),
    }
    Ok(())
}
