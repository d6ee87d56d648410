// What a scenario has come to: the disk, and what is gathered for the next trial.
use crate::calls::{Call, Change, Visit, add_call, bytes_of};
use crate::device_trial::DeviceTrial;
use crate::disk::Disk;
use crate::owed::course_of;
use crate::plan::Plan;
use crate::program::{Program, ProgramTrial};
use crate::stop::{Stop, ok};
use crate::trial::{Each, each_call};
use archive_service::{Settings, index_of};
use scenario_text::Step;
use std::alloc::Global;
use std::cell::RefCell;
use std::fmt::Write;

/// What a scenario has come to.
#[derive(Drop)]
pub struct Stage {
    /// For all that a scenario holds.
    pub alloc: Global,
    /// The disk over which trials begin.
    pub disk: Disk,
    /// The folder of the device.
    pub root: String,
    /// The words behind the program's name.
    pub words: Vec<String>,
    /// The numbers with which the next trial runs.
    pub settings: Settings,
    /// The script that was gathered since the last trial.
    pub script: String,
    /// The replies that its lines must get.
    pub wanted: String,
    /// The calls of a device that were gathered.
    pub calls: Vec<Call>,
}

impl Stage {
    /// An empty disk, and nothing gathered. The folder of the device is not there.
    pub fn new(alloc: Global) -> Result<Stage, Stop> {
        let mut words = Vec::new(alloc);
        for word in ["d", "prunable", "4"] {
            words.push(String::from_str(alloc, word)?)?;
        }
        Ok(Stage {
            alloc,
            disk: Disk::new(alloc)?,
            root: String::from_str(alloc, "d")?,
            words,
            settings: Settings::DEFAULT,
            script: String::new(alloc),
            wanted: String::new(alloc),
            calls: Vec::new(alloc),
        })
    }

    /// Takes what a step gives the next trial.
    pub fn give(&mut self, step: &Step) -> Result<String, Stop> {
        match step.word() {
            "root" => self.root = String::from_str(self.alloc, step.argument(0))?,
            "closing-forgets" => self.disk.closing_forgets = true,
            "folder" | "file" => self.put(step)?,
            "items" => {
                if let Some(word) = self.words.get_mut(2) {
                    *word = String::from_str(self.alloc, step.argument(0))?;
                }
            }
            "set" => set_number(&mut self.settings, step)?,
            ">" => self.take_line(step)?,
            "puts" => self.add_puts(number(step, 0)?)?,
            "writes" => self.add_writes(number(step, 0)?)?,
            _ => add_call(self.alloc, step, &mut self.calls)?,
        }
        ok(self.alloc)
    }

    // Puts a file or a folder on the disk, synced.
    fn put(&mut self, step: &Step) -> Result<(), Stop> {
        let is_folder = step.word() == "folder";
        let made = self.disk.make(step.argument(0), is_folder);
        let at = made?;
        if !is_folder {
            let bytes = bytes_of(self.alloc, step, 1)?;
            self.disk.write(at, 0, &bytes)?;
        }
        self.disk = self.disk.begun_with(Plan::Whole)?;
        Ok(())
    }

    // Takes a line of the script, with the reply that it must get.
    fn take_line(&mut self, step: &Step) -> Result<(), Stop> {
        let mut separator = "";
        for word in step.rest() {
            self.script.push_str(separator)?;
            self.script.push_str(word.as_str())?;
            separator = " ";
        }
        self.script.push('\n')?;
        self.wanted.push_str(step.wanted.as_str())?;
        self.wanted.push('\n')?;
        Ok(())
    }

    // Adds so many puts, each in a section of its own.
    fn add_puts(&mut self, count: u64) -> Result<(), Stop> {
        let items = items_of(&self.words);
        for i in 0..count {
            let index = i.saturating_mul(items);
            writeln!(&mut self.script, "put {index} {index:016x} {:02x}", i % 256)?;
            self.wanted.push_str("ok\n")?;
        }
        Ok(())
    }

    // Adds so many blobs, in each of which a byte is written.
    fn add_writes(&mut self, count: u64) -> Result<(), Stop> {
        for i in 0..count {
            let mut changes = Vec::new(self.alloc);
            changes.push(Change::Write(0, b"x".to_vec(self.alloc)?))?;
            self.calls.push(Call::Open(Visit {
                partition: String::from_str(self.alloc, "keys")?,
                name: i.to_be_bytes().to_vec(self.alloc)?,
                changes,
            }))?;
        }
        Ok(())
    }

    /// Tries what was gathered: the script where there is one, and else the calls.
    pub fn tried(&self, each: Each, least: u64) -> Result<String, Stop> {
        if self.script.is_empty() {
            let trial = DeviceTrial {
                alloc: self.alloc,
                start: &self.disk,
                root: self.root.as_str(),
                calls: self.calls.as_slice(),
            };
            return each_call(self.alloc, &trial, each, least);
        }
        let program = Program {
            alloc: self.alloc,
            start: &self.disk,
            root: self.root.as_str(),
            words: self.words.as_slice(),
            settings: &self.settings,
            items: items_of(&self.words),
            script: self.script.as_str(),
            wanted: self.wanted.as_str(),
        };
        let course = course_of(&program)?;
        let trial = ProgramTrial {
            program,
            course,
            latest: RefCell::new(Vec::new(self.alloc)),
        };
        each_call(self.alloc, &trial, each, least)
    }
}

/// How many indices a section has room for, by these words.
pub fn items_of(words: &[String]) -> u64 {
    match words.get(2) {
        Some(word) => index_of(word.as_bytes()).unwrap_or(1),
        None => 1,
    }
}

// The number at this place behind the first word of a step.
fn number(step: &Step, at: usize) -> Result<u64, Stop> {
    step.number(at).ok_or(Stop::Said("a number is missing"))
}

// Changes a setting.
fn set_number(settings: &mut Settings, step: &Step) -> Result<(), Stop> {
    let number = number(step, 1)?.min(65_535);
    match step.argument(0) {
        "page_size" => settings.page_size = number as u16,
        "cache_pages" => settings.cache_pages = number as u32,
        "write_buffer" => settings.write_buffer = number as usize,
        "replay_buffer" => settings.replay_buffer = number as usize,
        _ => return Err(Stop::Said("no such setting")),
    }
    Ok(())
}
