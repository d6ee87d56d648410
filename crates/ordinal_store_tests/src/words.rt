// The words of a step over a store.
use crate::asked::{is_mark, marks_in};
use crate::change::is_change;
use crate::model::Call;
use blob_device::CrashChoice;
use scenario_text::Step;
use std::alloc::{AllocError, Global};

/// What kind of command a word names.
#[derive(Clone, Copy)]
pub enum Family {
    /// It looks at the device.
    Look,
    /// It sets when the device fails.
    Arm,
    /// It makes another device, or another configuration. Nothing is open behind it.
    Remake,
    /// It makes a call that changes the store.
    Change,
    /// It reads a value of the store, or asks for indices.
    Ask,
    /// It begins a whole run.
    Run,
    /// It names what a crash may leave.
    Leaves,
}

/// What kind of command a word names.
pub fn family_of(word: &str) -> Family {
    match word {
        "calls" | "faults" | "shows" | "kept" => Family::Look,
        "fail" | "fuse" => Family::Arm,
        "store" | "blob" | "damage" | "crash" | "close" => Family::Remake,
        _ => family_of_call(word),
    }
}

// The same of a word that is for no device alone.
fn family_of_call(word: &str) -> Family {
    match word {
        "open" | "put" | "sync" | "prune" | "destroy" => Family::Change,
        "each-call-stops" | "each-call-stops-twice" | "each-call-fails" => Family::Run,
        "leaves" => Family::Leaves,
        _ => Family::Ask,
    }
}

/// What is said of a step with other words than its command takes.
pub const MISSPELT: &str = "refused: not the words of this command";

/// Whether a step has the words that its command takes.
pub fn is_spelt(step: &Step) -> bool {
    has_numbers(step, numbers_behind(step.word())) && has_others(step)
}

// How many numbers stand behind this first word at least.
fn numbers_behind(word: &str) -> usize {
    if has_one_number(word) {
        return 1;
    }
    match word {
        "store" => 3,
        "put" | "missing" => 2,
        _ => 0,
    }
}

// Whether one number stands behind this first word.
fn has_one_number(word: &str) -> bool {
    matches!(
        word,
        "get" | "has" | "next-gap" | "prune" | "fail" | "fuse" | "bits"
    )
}

// Whether so many numbers stand behind the first word.
fn has_numbers(step: &Step, count: usize) -> bool {
    for at in 0..count {
        if step.number(at).is_none() {
            return false;
        }
    }
    true
}

// Whether the words that are no such numbers are as the command takes them.
fn has_others(step: &Step) -> bool {
    match step.word() {
        "damage" => step.number(1).is_some(),
        "crash" => step.argument(0) != "mixed" || step.number(1).is_some(),
        "ranges" => step.rest().is_empty() || step.number(0).is_some(),
        "change" | "same" | "alike" => are_changes(step.rest()),
        "bits" => are_changes(entries(step)),
        "open" => are_marks(entries(step)),
        _ => true,
    }
}

// Whether each word spells a change.
fn are_changes(words: &[String]) -> bool {
    for word in words {
        if !is_change(word.as_str()) {
            return false;
        }
    }
    true
}

// Whether each word spells what is kept of a section.
fn are_marks(words: &[String]) -> bool {
    for word in words {
        if !is_mark(word.as_str()) {
            return false;
        }
    }
    true
}

/// The number at this place behind the first word. One that has to stand there does ([`is_spelt`]).
pub fn number(step: &Step, at: usize) -> u64 {
    step.number(at).unwrap_or(0)
}

/// The name that a word stands for: a section's where it is a number, and else its letters.
pub fn name_in(alloc: Global, word: &str) -> Result<Vec<u8>, AllocError> {
    match word.parse::<u64>() {
        Ok(section) => section.to_be_bytes().as_slice().to_vec(alloc),
        Err(_) => word.as_bytes().to_vec(alloc),
    }
}

/// The call that a step makes.
pub fn call_in(alloc: Global, step: &Step) -> Result<Call, AllocError> {
    let at = number(step, 0);
    match step.word() {
        "open" if step.argument(0) == "none" => Ok(Call::Open(None)),
        "open" => Ok(Call::Open(Some(marks_in(alloc, entries(step))?))),
        "put" => Ok(Call::Put(at, number(step, 1))),
        "sync" => Ok(Call::Sync),
        "prune" => Ok(Call::Prune(at)),
        _ => Ok(Call::Destroy),
    }
}

// The words behind the first two.
fn entries(step: &Step) -> &[String] {
    step.rest().get(1..).unwrap_or(&[])
}

/// The crash that a step names.
pub fn choice_in(step: &Step) -> CrashChoice {
    match step.argument(0) {
        "settled" => CrashChoice::Settled,
        "as-read" => CrashChoice::AsRead,
        _ => CrashChoice::Mixed(number(step, 1)),
    }
}
