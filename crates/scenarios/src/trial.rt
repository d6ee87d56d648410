// A script, and the image over which it is tried again and again.
use crate::image::device;
use crate::outcome::{Call, Outcome, WHOLE, outcome_of};
use crate::stage::Stage;
use crate::stop::Stop;
use archive_service::{Settings, index_of};
use blob_device::{Image, Memory};
use std::alloc::Global;

/// How many calls a run may make that is tried at each of them.
pub const MOST_CALLS: u64 = 1024;

/// A script, and the image over which it is tried.
#[derive(Drop)]
pub struct Trial<'a> {
    /// For the devices and texts of its runs.
    pub alloc: Global,
    /// The words behind the program's name.
    pub words: &'a [String],
    /// The numbers with which it runs.
    pub settings: &'a Settings,
    /// How many indices a section has room for.
    pub items: u64,
    /// Its lines.
    pub script: &'a str,
    /// The replies that its lines must get.
    pub wanted: &'a [String],
    /// From which call on all calls fail.
    pub fuse: Option<u64>,
    /// What the device holds as the run begins.
    pub start: &'a Image,
}

/// How many indices a section has room for, by these words.
pub fn items_of(words: &[String]) -> u64 {
    match words.get(2) {
        Some(word) => index_of(word.as_bytes()).unwrap_or(1),
        None => 1,
    }
}

impl<'a> Trial<'a> {
    /// A trial of the script that was gathered, over this image.
    pub fn new(stage: &'a Stage, start: &'a Image) -> Result<Trial<'a>, Stop> {
        let Ok(script) = std::str::from_utf8(stage.input.as_slice()) else {
            return Err(Stop::Said("the script is no text"));
        };
        Ok(Trial {
            alloc: stage.alloc,
            words: stage.words.as_slice(),
            settings: &stage.settings,
            items: items_of(stage.words.as_slice()),
            script,
            wanted: stage.wanted.as_slice(),
            fuse: stage.fuse,
            start,
        })
    }

    /// A device over the image.
    pub fn device(&self) -> Result<Memory, Stop> {
        let mut dev = device(self.alloc, self.start)?;
        if let Some(nth) = self.fuse {
            dev.fuse_at(nth);
        }
        Ok(dev)
    }

    /// The section of an index, which is its first index.
    pub fn first_of(&self, index: u64) -> u64 {
        index.saturating_sub(index.checked_rem(self.items).unwrap_or(0))
    }

    /// A call with this script.
    pub fn call<'b>(&'b self, script: &'b str) -> Call<'b> {
        Call {
            words: self.words,
            settings: self.settings,
            input: script.as_bytes(),
            piece: WHOLE,
            failing_read: None,
            failing_write: None,
        }
    }

    /// Runs these lines over a device.
    pub fn run(&self, dev: &mut Memory, script: &str) -> Result<Outcome, Stop> {
        outcome_of(self.alloc, &self.call(script), dev)
    }
}
