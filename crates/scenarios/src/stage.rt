// What a scenario has come to: what the next run is given, the device, and what the last run gave.
use crate::outcome::Outcome;
use archive_service::Settings;
use blob_device::{Image, Memory};
use std::alloc::{AllocError, Global};

/// What a scenario has come to.
#[derive(Drop)]
pub struct Stage {
    /// For all that a scenario holds.
    pub alloc: Global,
    /// The words behind the program's name.
    pub words: Vec<String>,
    /// The numbers with which the next run runs.
    pub settings: Settings,
    /// The script that was gathered since the last run.
    pub input: Vec<u8>,
    /// The replies that its lines must get.
    pub wanted: Vec<String>,
    /// From which call on all calls of a run fail.
    pub fuse: Option<u64>,
    /// The device, with all that the runs before did.
    pub dev: Memory,
    /// Where runs are made, if not over the device in memory.
    pub folder: Option<String>,
    /// What the last run began with.
    pub before: Image,
    /// How many calls the device had made when the last run ended.
    pub calls: u64,
    /// What the last run gave.
    pub last: Outcome,
}

impl Stage {
    /// An empty device in memory, and no script.
    pub fn new(alloc: Global) -> Result<Stage, AllocError> {
        let mut words = Vec::new(alloc);
        for word in ["-", "prunable", "4"] {
            words.push(String::from_str(alloc, word)?)?;
        }
        Ok(Stage {
            alloc,
            words,
            settings: Settings::DEFAULT,
            input: Vec::new(alloc),
            wanted: Vec::new(alloc),
            fuse: None,
            dev: Memory::new(alloc),
            folder: None,
            before: Image::new(alloc),
            calls: 0,
            last: Outcome::unserved(alloc),
        })
    }
}
