// A trial of the program over a folder, by a script.
use crate::cuts::CUTS;
use crate::disk::Disk;
use crate::files::DiskFiles;
use crate::judge::{Judged, judge_over, wrong_with};
use crate::owed::{Course, Owed};
use crate::plan::Plan;
use crate::stop::Stop;
use crate::trial::{Trial, Tried};
use archive_program::run_with;
use archive_service::{Ended, Settings};
use blob_device::{FileDevice, MemSink, MemSource};
use std::alloc::Global;
use std::cell::RefCell;

/// How a run of the program ended, and what it wrote.
#[derive(Drop)]
pub struct Outcome {
    /// How it ended.
    pub ended: Ended,
    /// What went to its standard output.
    pub written: String,
}

/// A script for the program over a folder of a disk.
#[derive(Drop)]
pub struct Program<'a> {
    /// For all that its runs hold.
    pub alloc: Global,
    /// The disk over which each run begins.
    pub start: &'a Disk,
    /// The folder of the archive.
    pub root: &'a str,
    /// The words behind the program's name.
    pub words: &'a [String],
    /// The numbers with which it runs.
    pub settings: &'a Settings,
    /// How many indices a section has room for.
    pub items: u64,
    /// Its lines.
    pub script: &'a str,
    /// The replies that its lines must get.
    pub wanted: &'a str,
}

/// So many bytes at a time are as good as all at once.
const WHOLE: usize = 1 << 20;

impl Program<'_> {
    /// The section of an index, which is its first index.
    pub fn first_of(&self, index: u64) -> u64 {
        index.saturating_sub(index.checked_rem(self.items).unwrap_or(0))
    }

    /// Runs these lines over the disk.
    pub fn run(&self, files: &DiskFiles, script: &str) -> Result<Outcome, Stop> {
        if !self.settings.is_valid() {
            return Err(Stop::Said("the settings are not valid"));
        }
        let mut dev = FileDevice::new(files, self.alloc, self.root)?;
        let mut source = MemSource::new(self.alloc, script.as_bytes(), WHOLE)?;
        let mut sink = MemSink::new(self.alloc, WHOLE);
        let ended = run_with(
            self.alloc,
            self.words,
            &mut dev,
            &mut source,
            &mut sink,
            self.settings,
        );
        let written = std::str::from_utf8(sink.bytes()).unwrap_or("no text");
        Ok(Outcome {
            ended,
            written: String::from_str(self.alloc, written)?,
        })
    }
}

// Whether a run may write these replies: all that are wanted, or where a call failed the first of them, and then an error.
fn are_lawful(written: &str, wanted: &str, has_failed: bool) -> bool {
    let mut wanted = wanted.lines();
    let mut is_over = false;
    for line in written.lines() {
        if is_over {
            return false;
        }
        if has_failed && line.starts_with("error ") {
            is_over = true;
        } else if wanted.next() != Some(line) {
            return false;
        }
    }
    is_over || wanted.next().is_none()
}

/// A program's trial, with what it owes.
#[derive(Drop)]
pub struct ProgramTrial<'a> {
    /// What is tried.
    pub program: Program<'a>,
    /// What it owes as it goes on.
    pub course: Course,
    /// What was judged so far.
    pub latest: RefCell<Vec<Judged>>,
}

impl Trial for ProgramTrial<'_> {
    fn tried(&self, plan: Plan) -> Result<Tried, Stop> {
        let program = &self.program;
        let files = DiskFiles::new(program.start.begun_with(plan)?)?;
        let run = program.run(&files, program.script)?;
        let (calls, has_failed_to_change) = (files.calls(), files.has_failed_to_change());
        if !are_lawful(run.written.as_str(), program.wanted, plan.is_reached(calls)) {
            let text = run.written.as_str();
            let wrong = format!(in program.alloc; "the replies are {text:?}")?;
            return Ok(Tried {
                calls,
                has_failed_to_change,
                wrong,
            });
        }
        let owed = self.course.owed(program, &run)?;
        let wrong = self.judge(&files, plan, &owed)?;
        Ok(Tried {
            calls,
            has_failed_to_change,
            wrong,
        })
    }
}

impl ProgramTrial<'_> {
    // What is wrong with what each power cut leaves, and with what a run that was stopped leaves while the power stays.
    fn judge(&self, files: &DiskFiles, plan: Plan, owed: &Owed) -> Result<String, Stop> {
        let alloc = self.program.alloc;
        let Ok(mut latest) = self.latest.try_borrow_mut() else {
            return Err(Stop::Said("the images are in use"));
        };
        for choice in CUTS {
            let left = files.after_power(choice)?;
            let wrong = wrong_with(&self.program, &self.course, &mut latest, left, owed)?;
            if !wrong.is_empty() {
                return Ok(format!(in alloc; "{choice:?}: {wrong}")?);
            }
        }
        if let Plan::Fails(_) = plan {
            return Ok(String::new(alloc));
        }
        files.go_on();
        let wrong = judge_over(&self.program, &self.course, files)?.against(owed);
        if wrong.is_empty() {
            return Ok(String::new(alloc));
        }
        Ok(format!(in alloc; "with no power cut: {wrong}")?)
    }
}
