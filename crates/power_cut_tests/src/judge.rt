// What an image must be, wherever the run before it stopped: lawful, what is owed, and opened as what it keeps.
use crate::disk::Disk;
use crate::files::DiskFiles;
use crate::kept::{Kept, blob_of, found_in, index_in, kept_in, record_of, records_of, word_in};
use crate::left::{blobs_below, image_of};
use crate::owed::{Course, Owed};
use crate::program::Program;
use crate::stop::Stop;
use archives::prunable::IndexRecord;
use blob_device::{CrashChoice, Image};
use paired::Record;
use paired::plain::{Found, has_sound};
use std::alloc::{AllocError, Global};
use std::fmt::Write;
use value_codec::{Key8, Sha256Seal};

/// An image, what the plain program says that it keeps, and what is wrong with it.
#[derive(Drop)]
pub struct Judged {
    // The image that was judged.
    image: Image,
    // What the plain program finds in it.
    kept: Vec<Kept>,
    // What is wrong with it whatever is owed; empty where nothing is.
    wrong: &'static str,
}

impl Judged {
    /// What is wrong with an image of which this is owed; nothing where all is well.
    pub fn against(&self, owed: &Owed) -> &'static str {
        if self.wrong.is_empty() && !owed.allows(&self.kept) {
            return "it keeps other records than those that are owed";
        }
        self.wrong
    }
}

/// Judges a disk. A new run over it must find what the plain program finds there, where it looks for the records of the course, and
/// what it finds must have settled.
pub fn judge_over(trial: &Program<'_>, course: &Course, files: &DiskFiles) -> Result<Judged, Stop> {
    let alloc = trial.alloc;
    let page_size = trial.settings.page_size;
    let image = image_of(alloc, &files.blobs_below(trial.root)?)?;
    let kept = kept_in(alloc, page_size, &image)?;
    let mut wrong = unlawful(alloc, page_size, trial.items, &image, &kept)?;
    if wrong.is_empty() {
        wrong = unfound(trial, course, &kept, files)?;
    }
    Ok(Judged { image, kept, wrong })
}

// What a new run over the disk finds wrong, where this must be kept.
fn unfound(
    trial: &Program<'_>,
    course: &Course,
    kept: &[Kept],
    files: &DiskFiles,
) -> Result<&'static str, Stop> {
    let alloc = trial.alloc;
    for one in kept {
        if !course.sections.contains(&one.section) {
            return Ok("it has a section of which nothing was put");
        }
    }
    let looks = looks_of(trial, course, kept)?;
    let run = trial.run(files, looks.script.as_str())?;
    if run.ended.status != 0 || run.written.as_str() != looks.replies.as_str() {
        return Ok("a new run does not find what is kept");
    }
    let settled = files.after_power(CrashChoice::Settled)?;
    let image = image_of(alloc, &blobs_below(&settled, trial.root)?)?;
    let after = kept_in(alloc, trial.settings.page_size, &image)?;
    if !are_settled(kept, &after) {
        return Ok("a new run keeps something else, or leaves it unmarked or not synced");
    }
    Ok("")
}

// How many images are looked for again. Images of calls that follow one another are alike.
const LATEST: usize = 32;

/// What is wrong with what a power cut left, of which this is owed; nothing where all is well. Images that were judged of late are not judged
/// again.
pub fn wrong_with(
    trial: &Program<'_>,
    course: &Course,
    latest: &mut Vec<Judged>,
    left: Disk,
    owed: &Owed,
) -> Result<&'static str, Stop> {
    let image = image_of(trial.alloc, &blobs_below(&left, trial.root)?)?;
    for judged in latest.iter().rev().take(LATEST) {
        if are_same(&course.sections, &judged.image, &image) {
            return Ok(judged.against(owed));
        }
    }
    let judged = judge_over(trial, course, &DiskFiles::new(left)?)?;
    let wrong = judged.against(owed);
    latest.push(judged)?;
    Ok(wrong)
}

// Whether two images have the same blobs of these sections, and the same copies of the markers.
fn are_same(sections: &[u64], some: &Image, other: &Image) -> bool {
    for section in sections {
        let name = section.to_be_bytes();
        for partition in ["keys", "values"] {
            if some.blob(partition, name.as_slice()) != other.blob(partition, name.as_slice()) {
                return false;
            }
        }
    }
    some.blob("meta", b"left") == other.blob("meta", b"left")
        && some.blob("meta", b"right") == other.blob("meta", b"right")
}

/// Why an image is not lawful; nothing where it is: each record stands in its section and names the place behind the one before, and
/// the markers are true.
pub fn unlawful(
    alloc: Global,
    page_size: u16,
    items: u64,
    image: &Image,
    kept: &[Kept],
) -> Result<&'static str, Stop> {
    for one in kept {
        let all = found_in(alloc, page_size, image, one.section, u64::MAX)?;
        if !are_records(alloc, items, one.section, &all)? {
            return Ok("a record is in another section than its own, or leaves a gap");
        }
        if !is_marked_truly(alloc, page_size, image, one)? {
            return Ok("a marker is not true");
        }
    }
    Ok("")
}

// Whether these are records of the section, whose values follow one another.
fn are_records(alloc: Global, items: u64, section: u64, found: &[Found]) -> Result<bool, Stop> {
    let mut end = 0;
    for item in found {
        let record = record_of(alloc, item)?;
        let (offset, size) = record.value_location();
        let index = record.index();
        let first = index.saturating_sub(index.checked_rem(items).unwrap_or(0));
        if first != section || offset != end || size < 4 {
            return Ok(false);
        }
        end = offset.saturating_add(u64::from(size));
    }
    Ok(true)
}

// Whether the section's marker is true: it has a blob, so many records, and all of these are sound.
fn is_marked_truly(alloc: Global, page_size: u16, image: &Image, one: &Kept) -> Result<bool, Stop> {
    let Some(marker) = one.marker else {
        return Ok(true);
    };
    let is_sound = has_sound::<IndexRecord<Key8>, Sha256Seal>(
        alloc,
        page_size,
        blob_of(image, "keys", one.section),
        blob_of(image, "values", one.section),
        marker,
    );
    let name = one.section.to_be_bytes();
    let is_there = image.blob("keys", name.as_slice()).is_some();
    match is_sound {
        Ok(is_sound) => Ok(is_sound && is_there),
        Err(error) => Err(Stop::from(archives::Error::from(error))),
    }
}

// Lookups, and the replies that they must get.
#[derive(Drop)]
struct Looks {
    // The lines, each with its LF.
    script: String,
    // The replies that they must get, each with its LF.
    replies: String,
}

// How many indices of a section are looked up, besides those of records.
const LOOKED: u64 = 16;

// Lookups of indices of each section, and of each record by its key, and by its index where that is not among these.
fn looks_of(trial: &Program<'_>, course: &Course, kept: &[Kept]) -> Result<Looks, AllocError> {
    let mut looks = Looks {
        script: String::new(trial.alloc),
        replies: String::new(trial.alloc),
    };
    for first in course.sections.iter() {
        for index in *first..first.saturating_add(trial.items.min(LOOKED)) {
            looks.ask_index(index, records_of(kept, *first))?;
        }
    }
    for record in course.records.iter() {
        let index = index_in(record.as_str()).unwrap_or(0);
        let first = trial.first_of(index);
        if index.saturating_sub(first) >= LOOKED {
            looks.ask_index(index, records_of(kept, first))?;
        }
        looks.ask_key(word_in(record.as_str(), 1), kept)?;
    }
    Ok(looks)
}

impl Looks {
    // Asks for an index, of whose section these records are kept.
    fn ask_index(&mut self, index: u64, records: &[String]) -> Result<(), AllocError> {
        writeln!(self.script, "has {index}\nget {index}")?;
        for record in records {
            if index_in(record.as_str()) == Some(index) {
                let value = word_in(record.as_str(), 2);
                return writeln!(self.replies, "yes\nvalue {value}");
            }
        }
        self.replies.push_str("no\nnone\n")
    }

    // Asks for a key, unless two records have it.
    fn ask_key(&mut self, key: &str, kept: &[Kept]) -> Result<(), AllocError> {
        let mut count = 0_u64;
        let mut value = "";
        for one in kept {
            for record in one.records.iter() {
                if word_in(record.as_str(), 1) == key {
                    count = count.saturating_add(1);
                    value = word_in(record.as_str(), 2);
                }
            }
        }
        if count > 1 {
            return Ok(());
        }
        writeln!(self.script, "hask {key}\ngetk {key}")?;
        if count == 1 {
            writeln!(self.replies, "yes\nvalue {value}")
        } else {
            self.replies.push_str("no\nnone\n")
        }
    }
}

// Whether the same is kept afterwards, with a marker of all records of each section.
fn are_settled(kept: &[Kept], after: &[Kept]) -> bool {
    for one in kept {
        if records_of(after, one.section) != one.records.as_slice() {
            return false;
        }
    }
    for one in after {
        if one.marker.unwrap_or(0) != one.records.len() as u64
            || records_of(kept, one.section) != one.records.as_slice()
        {
            return false;
        }
    }
    true
}
