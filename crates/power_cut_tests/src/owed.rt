// What an image has to keep of a run that stopped, by its script and by how far it came.
use crate::files::DiskFiles;
use crate::kept::{Kept, index_in, kept_in, records_of};
use crate::left::{blobs_below, image_of};
use crate::plan::Plan;
use crate::program::{Outcome, Program};
use crate::stop::Stop;
use std::alloc::Global;

/// The puts that a section took, in order, and how many of them are synced.
#[derive(Drop)]
struct Section {
    // Its first index, by which it is named.
    first: u64,
    // The records as a script spells them; no two have one index.
    puts: Vec<String>,
    // How many of them, from the first on, have to be kept.
    synced: usize,
}

/// What is owed of each section.
#[derive(Drop)]
pub struct Owed {
    // For the texts of records.
    alloc: Global,
    // How many indices a section has room for.
    items: u64,
    // One for each section that something was put into.
    sections: Vec<Section>,
}

impl Owed {
    // All that is kept, as synced.
    fn of_kept(alloc: Global, items: u64, kept: &[Kept]) -> Result<Owed, Stop> {
        let mut owed = Owed {
            alloc,
            items,
            sections: Vec::new(alloc),
        };
        for one in kept {
            for record in one.records.iter() {
                owed.submit(record.as_str())?;
            }
        }
        owed.settle();
        Ok(owed)
    }

    // A put of this record begins. Where its index is taken it changes nothing.
    fn submit(&mut self, record: &str) -> Result<(), Stop> {
        let Some(index) = index_in(record) else {
            return Ok(());
        };
        let first = index.saturating_sub(index.checked_rem(self.items).unwrap_or(0));
        let text = String::from_str(self.alloc, record)?;
        for section in self.sections.iter_mut() {
            if section.first == first {
                return section.submit(index, text);
            }
        }
        let mut section = Section {
            first,
            puts: Vec::new(self.alloc),
            synced: 0,
        };
        section.puts.push(text)?;
        self.sections.push(section)?;
        Ok(())
    }

    // All that was put is synced.
    fn settle(&mut self) {
        for section in self.sections.iter_mut() {
            section.synced = section.puts.len();
        }
    }

    // The archive was opened again over what was kept.
    fn reopen(&mut self, kept: &[Kept]) {
        for section in self.sections.iter_mut() {
            section.puts.truncate(records_of(kept, section.first).len());
        }
        self.settle();
    }

    /// Whether an image may keep this: of each section the first puts, with all that are synced, and nothing else.
    pub fn allows(&self, kept: &[Kept]) -> bool {
        let mut left = 0_usize;
        for one in kept {
            left = left.saturating_add(one.records.len());
        }
        for section in self.sections.iter() {
            let records = records_of(kept, section.first);
            if records.len() < section.synced
                || section.puts.get(..records.len()) != Some(records)
            {
                return false;
            }
            left = left.saturating_sub(records.len());
        }
        left == 0
    }
}

impl Section {
    // Takes a put of this index, unless it is taken.
    fn submit(&mut self, index: u64, record: String) -> Result<(), Stop> {
        for put in self.puts.iter() {
            if index_in(put.as_str()) == Some(index) {
                return Ok(());
            }
        }
        self.puts.push(record)?;
        Ok(())
    }
}

/// What a trial owes as it goes on: what the first image keeps, and what is kept before each opening again.
#[derive(Drop)]
pub struct Course {
    // What the first image keeps, and behind it what is kept before each `reopen` of the script, in order.
    openings: Vec<Vec<Kept>>,
    /// All records that the first image keeps or the script puts.
    pub records: Vec<String>,
    /// The sections that the first image has, and those of the records.
    pub sections: Vec<u64>,
}

/// The course of a trial. What an opening finds is what the plain program says is kept of the lines before it.
pub fn course_of(trial: &Program<'_>) -> Result<Course, Stop> {
    let alloc = trial.alloc;
    let page_size = trial.settings.page_size;
    let mut openings = Vec::new(alloc);
    let image = image_of(alloc, &blobs_below(trial.start, trial.root)?)?;
    let first = kept_in(alloc, page_size, &image)?;
    let records = records_in(trial, &first)?;
    let sections = sections_of(trial, &first, &records)?;
    openings.push(first)?;
    let mut before = String::new(alloc);
    for line in trial.script.lines() {
        if line == "reopen" {
            let files = DiskFiles::new(trial.start.begun_with(Plan::Whole)?)?;
            trial.run(&files, before.as_str())?;
            let image = image_of(alloc, &files.blobs_below(trial.root)?)?;
            openings.push(kept_in(alloc, page_size, &image)?)?;
        }
        before.push_str(line)?;
        before.push_str("\n")?;
    }
    Ok(Course {
        openings,
        records,
        sections,
    })
}

// All records that the first image keeps or the script puts.
fn records_in(trial: &Program<'_>, first: &[Kept]) -> Result<Vec<String>, Stop> {
    let mut records = Vec::new(trial.alloc);
    for one in first {
        for record in one.records.iter() {
            records.push(record.clone()?)?;
        }
    }
    for line in trial.script.lines() {
        let (word, record) = line.split_once(' ').unwrap_or((line, ""));
        if word.starts_with("put") {
            records.push(String::from_str(trial.alloc, record)?)?;
        }
    }
    Ok(records)
}

// The sections that the first image has, and those of the records.
fn sections_of(trial: &Program<'_>, first: &[Kept], records: &[String]) -> Result<Vec<u64>, Stop> {
    let mut sections = Vec::new(trial.alloc);
    for one in first {
        sections.push(one.section)?;
    }
    for record in records {
        let section = trial.first_of(index_in(record.as_str()).unwrap_or(0));
        if !sections.contains(&section) {
            sections.push(section)?;
        }
    }
    Ok(sections)
}

impl Course {
    /// What is owed of a run: the commands that were begun may be kept, and those that have replies are done.
    pub fn owed(&self, trial: &Program<'_>, run: &Outcome) -> Result<Owed, Stop> {
        let mut openings = self.openings.as_slice();
        let mut owed = Owed::of_kept(trial.alloc, trial.items, next_of(&mut openings))?;
        let begun = run.ended.marks.as_slice().len();
        let replied = replies_in(run);
        for (at, line) in trial.script.lines().take(begun).enumerate() {
            let (word, record) = line.split_once(' ').unwrap_or((line, ""));
            if word.starts_with("put") {
                owed.submit(record)?;
            }
            if at >= replied {
                continue;
            }
            match word {
                "putsync" | "putstart" | "sync" | "start" => owed.settle(),
                "reopen" => {
                    let kept = next_of(&mut openings);
                    if !owed.allows(kept) {
                        return Err(Stop::Said("what is kept before an opening is not owed"));
                    }
                    owed.reopen(kept);
                }
                _ => {}
            }
        }
        Ok(owed)
    }
}

// The first of these, which is taken from them.
fn next_of<'a>(openings: &mut &'a [Vec<Kept>]) -> &'a [Kept] {
    match openings.split_first() {
        Some((first, others)) => {
            *openings = others;
            first.as_slice()
        }
        None => &[],
    }
}

// How many replies a run gave.
fn replies_in(run: &Outcome) -> usize {
    let mut count = 0_usize;
    for line in run.written.lines() {
        if !line.starts_with("error ") {
            count = count.saturating_add(1);
        }
    }
    count
}
