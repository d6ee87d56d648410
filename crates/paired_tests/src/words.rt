// The words of a step.
ghost use Rattle.std.specs.Prelude.{IfOk};

use crate::content::{Content, value_in};
use scenario_text::Step;
use segments::journal::Error;
use std::alloc::{AllocError, Global};
use std::collections::BTreeMap;
use value_codec::Codec;

/// What kind of command a word names.
#[derive(Clone, Copy)]
pub enum Family {
    /// It asks how often the device was called.
    Count,
    /// It looks at the device.
    Look,
    /// It makes another device, or closes what is open.
    Remake,
    /// It sets when the device fails.
    Arm,
    /// It opens a pair.
    OpenPair,
    /// It opens a glob.
    OpenGlob,
    /// It asks what is open.
    Ask,
    /// It changes what is open.
    Change,
    /// It begins a whole run.
    Run,
    /// It names what a crash may leave.
    Leaves,
}

pub fn family_of(word: &str) -> Family {
    match word {
        "calls" | "calls-at-most" | "count-calls" | "note-calls" | "calls-as-noted" =>
            Family::Count,
        "faults"
        | "remember"
        | "same"
        | "shows"
        | "there"
        | "length"
        | "kept"
        | "frames"
        | "settled-shows"
        | "settled-there"
        | "settled-kept" => Family::Look,
        "image" | "blob" | "no-blob" | "damage" | "resize" | "crash" | "close" | "names" =>
            Family::Remake,
        "fail" | "fuse" => Family::Arm,
        "open" | "begin" => Family::OpenPair,
        "open-glob" | "recover" | "valid" => Family::OpenGlob,
        "get"
        | "last"
        | "frame"
        | "value-size"
        | "size"
        | "pruned"
        | "oldest"
        | "newest"
        | "sections"
        | "ceiling"
        | "verify"
        | "next" => Family::Ask,
        "each-call-stops" | "each-call-fails" | "each-call-fails-twice" => Family::Run,
        "leaves" | "leaves-frames" => Family::Leaves,
        _ => Family::Change,
    }
}

/// The word at this place behind the first one as a number of bytes; the greatest one where it is
/// greater.
pub fn size(step: &Step, at: usize) -> u32 {
    u32::try_from(number(step, at)).unwrap_or(u32::MAX)
}

/// The number at this place behind the first word; 0 where no number stands there.
pub fn number(step: &Step, at: usize) -> u64 {
    step.number(at).unwrap_or(0)
}

/// The name that a word stands for: a section's where it is a number, and else its letters.
pub fn name_of(alloc: Global, word: &str) -> Result<Vec<u8>, AllocError> {
    match word.parse::<u64>() {
        Ok(section) => section.to_be_bytes().as_slice().to_vec(alloc),
        Err(_) => word.as_bytes().to_vec(alloc),
    }
}

/// What a change is told.
#[derive(Drop)]
pub struct Order {
    /// The section of a record.
    pub section: u64,
    /// The number of a record.
    pub number: u64,
    /// Its value.
    pub value: Content,
    /// The sections of a sync, a prune or a cut.
    pub named: Named,
}

/// The sections that a change names, those that stay active, and the sizes that sections get.
#[derive(Drop)]
pub struct Named {
    /// Those that are named.
    pub sections: Vec<u64>,
    /// Those that stay active.
    pub active: Vec<u64>,
    /// The size that a section gets, by its number.
    pub sizes: BTreeMap<u64, u64>,
}

/// What the words of a change tell.
pub fn order_of(alloc: Global, step: &Step) -> Result<Order, Error>
    ensures { IfOk result (λ o. ⟦<Content as Codec>⟧.accepted o.value tt) }
{
    let value = value_in(alloc, step)?;
    let mut named = Named {
        sections: Vec::new(alloc),
        active: Vec::new(alloc),
        sizes: BTreeMap::new(alloc),
    };
    name_all(&mut named, step)?;
    Ok(Order {
        section: number(step, 0),
        number: number(step, 1),
        value,
        named,
    })
}

// Takes the words one by one: `/` stands before the active ones, and `:` between a section and its
// size.
fn name_all(named: &mut Named, step: &Step) -> Result<(), AllocError> {
    let mut is_behind = false;
    for word in step.rest() {
        let (prefix, size) = word.as_str().split_once(":").unwrap_or((word.as_str(), ""));
        let section = prefix.parse::<u64>().unwrap_or(0);
        if prefix == "/" {
            is_behind = true;
        } else if !size.is_empty() {
            named
                .sizes
                .insert(section, size.parse::<u64>().unwrap_or(0))?;
        } else if is_behind {
            named.active.push(section)?;
        } else {
            named.sections.push(section)?;
        }
    }
    Ok(())
}
