// What an image has to keep of a run that stopped, by its script and by how far it came.
use crate::kept::{Kept, index_in, kept_in, records_of};
use crate::outcome::Outcome;
use crate::stop::Stop;
use crate::trial::Trial;
use std::alloc::Global;

/// The puts that a section took, in order, and how many of them are synced.
#[derive(Drop)]
struct Section {
    // the first index that it has room for
    first: u64,
    // each with its words
    puts: Vec<String>,
    // how many of them no crash may take
    synced: usize,
}

/// Which sections may be gone, since a command is under way that takes them away.
#[derive(Clone, Copy)]
enum Going {
    /// None may be.
    None,
    /// Those below this one.
    Below(u64),
    /// Each may be.
    All,
}

/// What is owed of each section.
#[derive(Drop)]
pub struct Owed {
    // for the lists of what is owed
    alloc: Global,
    // how many indices a section has room for
    items: u64,
    // the start of a section, moved by a prune that has its reply: nothing is put below it
    floor: u64,
    // from a destroy that has its reply up to a reopening: nothing is put at all
    is_closed: bool,
    // what the command under way takes away: nothing once it has its reply
    going: Going,
    // in the order in which they came
    sections: Vec<Section>,
}

/// Whether a put stores nothing where its index is taken.
#[derive(Clone, Copy, PartialEq, Eq)]
enum Times {
    /// Then it stores nothing.
    Once,
    /// It stores a record more.
    Often,
}

impl Going {
    fn has(self, first: u64) -> bool {
        match self {
            Going::None => false,
            Going::Below(bound) => first < bound,
            Going::All => true,
        }
    }
}

impl Owed {
    // All that is kept, as synced.
    fn of_kept(alloc: Global, items: u64, kept: &[Kept]) -> Result<Owed, Stop> {
        let mut owed = Owed {
            alloc,
            items,
            floor: 0,
            is_closed: false,
            going: Going::None,
            sections: Vec::new(alloc),
        };
        for one in kept {
            for record in one.records.iter() {
                owed.submit(record.as_str(), Times::Often)?;
            }
        }
        owed.settle();
        Ok(owed)
    }

    // The section of an index, which is its first index.
    fn first_of(&self, index: u64) -> u64 {
        index.saturating_sub(index.checked_rem(self.items).unwrap_or(0))
    }

    // A put of this record begins. Below the floor, and where its index is taken and may have one record, it
    // changes nothing.
    fn submit(&mut self, record: &str, times: Times) -> Result<(), Stop> {
        let Some(index) = index_in(record) else {
            return Ok(());
        };
        if self.is_closed || index < self.floor {
            return Ok(());
        }
        let first = self.first_of(index);
        let text = String::from_str(self.alloc, record)?;
        for section in self.sections.iter_mut() {
            if section.first == first {
                return section.submit(index, text, times);
            }
        }
        let mut section = Section {
            first,
            puts: Vec::new(self.alloc),
            synced: 0,
        };
        section.puts.push(text)?;
        self.sections.push(section)?;
        Ok(())
    }

    // All that was put is synced.
    fn settle(&mut self) {
        for section in self.sections.iter_mut() {
            section.synced = section.puts.len();
        }
    }

    // A prune up to this index begins.
    fn begin_prune(&mut self, index: u64) {
        let bound = self.first_of(index);
        if !self.is_closed && bound > self.floor {
            self.going = Going::Below(bound);
        }
    }

    // All is taken away.
    fn begin_destroy(&mut self) {
        if !self.is_closed {
            self.going = Going::All;
        }
    }

    // What was going is gone.
    fn end_going(&mut self) {
        let going = self.going;
        self.sections.retain(|section| !going.has(section.first));
        match going {
            Going::None => {}
            Going::Below(bound) => self.floor = bound,
            Going::All => self.is_closed = true,
        }
        self.going = Going::None;
    }

    // The archive was opened again over what was kept. Its floor is not stored.
    fn reopen(&mut self, kept: &[Kept]) {
        self.floor = 0;
        self.is_closed = false;
        for section in self.sections.iter_mut() {
            section.puts.truncate(records_of(kept, section.first).len());
        }
        self.settle();
    }

    /// Whether an image may keep this: of each section the first puts, with all that are synced, or nothing
    /// of one that is going; and nothing else. Of what is gone it has no blob and no marker.
    pub fn allows(&self, kept: &[Kept]) -> bool {
        let mut left = 0_usize;
        for one in kept {
            if self.is_closed || one.section < self.floor {
                return false;
            }
            left = left.saturating_add(one.records.len());
        }
        for section in self.sections.iter() {
            let records = records_of(kept, section.first);
            let is_gone = records.is_empty() && self.going.has(section.first);
            if !is_gone
                && (records.len() < section.synced
                    || section.puts.get(..records.len()) != Some(records))
            {
                return false;
            }
            left = left.saturating_sub(records.len());
        }
        left == 0
    }
}

impl Section {
    // Takes a put of this index, unless it is taken and may have one record.
    fn submit(&mut self, index: u64, record: String, times: Times) -> Result<(), Stop> {
        for put in self.puts.iter() {
            if times == Times::Once && index_in(put.as_str()) == Some(index) {
                return Ok(());
            }
        }
        self.puts.push(record)?;
        Ok(())
    }
}

/// What a trial owes as it goes on: what the first image keeps, and what is kept before each opening again.
#[derive(Drop)]
pub struct Course {
    // one for each opening of the script, in order
    openings: Vec<Vec<Kept>>,
    /// All records that the first image keeps or the script puts.
    pub records: Vec<String>,
    /// The sections that the first image has, and those of the records.
    pub sections: Vec<u64>,
}

/// The course of a trial. What an opening finds is what the plain program says is kept of the lines before it.
pub fn course_of(trial: &Trial<'_>) -> Result<Course, Stop> {
    let alloc = trial.alloc;
    let page_size = trial.settings.page_size;
    let mut openings = Vec::new(alloc);
    let first = kept_in(alloc, page_size, trial.start)?;
    let records = records_in(trial, &first)?;
    let sections = sections_of(trial, &first, &records)?;
    openings.push(first)?;
    let mut before = String::new(alloc);
    for line in trial.script.lines() {
        if line == "reopen" {
            let mut dev = trial.device()?;
            trial.run(&mut dev, before.as_str())?;
            openings.push(kept_in(alloc, page_size, &dev.image(alloc)?)?)?;
        }
        before.push_str(line)?;
        before.push_str("\n")?;
    }
    Ok(Course {
        openings,
        records,
        sections,
    })
}

// All records that the first image keeps or the script puts.
fn records_in(trial: &Trial<'_>, first: &[Kept]) -> Result<Vec<String>, Stop> {
    let mut records = Vec::new(trial.alloc);
    for one in first {
        for record in one.records.iter() {
            records.push(record.clone()?)?;
        }
    }
    for line in trial.script.lines() {
        let (word, record) = line.split_once(' ').unwrap_or((line, ""));
        if times_of(word).is_some() {
            records.push(String::from_str(trial.alloc, record)?)?;
        }
    }
    Ok(records)
}

// The sections that the first image has, and those of the records.
fn sections_of(trial: &Trial<'_>, first: &[Kept], records: &[String]) -> Result<Vec<u64>, Stop> {
    let mut sections = Vec::new(trial.alloc);
    for one in first {
        sections.push(one.section)?;
    }
    for record in records {
        let section = trial.first_of(index_in(record.as_str()).unwrap_or(0));
        if !sections.contains(&section) {
            sections.push(section)?;
        }
    }
    Ok(sections)
}

impl Course {
    /// What is owed of a run: the commands that were begun may be kept, and those that have replies are done.
    pub fn owed(&self, trial: &Trial<'_>, run: &Outcome) -> Result<Owed, Stop> {
        let mut openings = self.openings.as_slice();
        let mut owed = Owed::of_kept(trial.alloc, trial.items, next_of(&mut openings))?;
        let begun = run.ended.marks.as_slice().len();
        let replied = replies_in(run);
        for (at, line) in trial.script.lines().take(begun).enumerate() {
            let (word, rest) = line.split_once(' ').unwrap_or((line, ""));
            owed.begin(word, rest)?;
            if at >= replied {
                continue;
            }
            if word == "reopen" {
                let kept = next_of(&mut openings);
                if !owed.allows(kept) {
                    return Err(Stop::Said("what is kept before an opening is not owed"));
                }
                owed.reopen(kept);
            } else {
                owed.end(word)?;
            }
        }
        Ok(owed)
    }
}

// How a command of this name puts a record, if it does.
fn times_of(word: &str) -> Option<Times> {
    match word {
        "put" | "putsync" | "putstart" => Some(Times::Once),
        "multi" | "multisync" | "multistart" => Some(Times::Often),
        _ => None,
    }
}

/// What a command that has its reply has done to what is owed.
#[derive(Clone, Copy)]
enum Ending {
    /// Nothing: it was a lookup, or put a record that is not synced.
    Nothing,
    /// All that was put is synced.
    Settled,
    /// What was going is gone.
    Gone,
}

// What a command of this name has done, but a reopening. A new name has to be entered here.
fn ending_of(word: &str) -> Result<Ending, Stop> {
    match word {
        "put" | "multi" => Ok(Ending::Nothing),
        "get" | "getk" | "all" | "has" | "hask" | "hasat" => Ok(Ending::Nothing),
        "gap" | "missing" | "ranges" | "rangesfrom" | "first" | "last" => Ok(Ending::Nothing),
        "putsync" | "putstart" | "multisync" | "multistart" => Ok(Ending::Settled),
        "sync" | "start" => Ok(Ending::Settled),
        "prune" | "destroy" => Ok(Ending::Gone),
        _ => Err(Stop::Said("the judge does not know a command")),
    }
}

impl Owed {
    // A command begins.
    fn begin(&mut self, word: &str, rest: &str) -> Result<(), Stop> {
        if let Some(times) = times_of(word) {
            return self.submit(rest, times);
        }
        if word == "prune" {
            self.begin_prune(index_in(rest).unwrap_or(0));
        }
        if word == "destroy" {
            self.begin_destroy();
        }
        Ok(())
    }

    // A command has its reply.
    fn end(&mut self, word: &str) -> Result<(), Stop> {
        match ending_of(word)? {
            Ending::Nothing => {}
            Ending::Settled => self.settle(),
            Ending::Gone => self.end_going(),
        }
        Ok(())
    }
}

// The first of these, which is taken from them.
fn next_of<'a>(openings: &mut &'a [Vec<Kept>]) -> &'a [Kept] {
    match openings.split_first() {
        Some((first, others)) => {
            *openings = others;
            first.as_slice()
        }
        None => &[],
    }
}

// How many replies a run gave.
fn replies_in(run: &Outcome) -> usize {
    let mut count = 0_usize;
    for line in run.written.lines() {
        if !line.starts_with("error ") {
            count = count.saturating_add(1);
        }
    }
    count
}
