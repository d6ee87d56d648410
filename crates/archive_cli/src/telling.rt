// What is said on standard error. There is nobody else to tell where that fails.
ghost use Rattle.std.specs.Prelude.{◌≡◌};

use crate::meaning::Meaning;
use crate::ran::{Moment, Ran};
use crate::texts::{USAGE, fault_text};
use archive_service::{Settings, Status};
use archive_words::{Loss, Note, Notebook, Shown, complaint_of_line, complaint_of_words};
use archives::Error;
use std::fmt;

/// Says what the run took off the archive's blobs, and what is wrong, if anything is. It answers the status.
///
/// What failed in the folder says more than the error does.
pub fn tell(rt: &HostRuntime, ran: &Ran<'_>, notebook: &Notebook, failure: Option<&str>) -> u8
    ensures { result ≡ ran.now.ended.status }
{
    tell_losses(rt, ran, notebook);
    let status = ran.ended.status;
    if status == Status::Usage as u8 {
        tell_usage(rt, ran)
    } else if status == Status::BadScript as u8 {
        tell_bad_line(rt, ran)
    } else if status == Status::StoreError as u8 {
        tell_error(rt, ran, failure)
    } else {
        let _ = report(rt, status);
    }
    status
}

/// Says what a status means, if it is not 0, and answers it.
pub fn report(rt: &HostRuntime, status: u8) -> u8
    ensures { result ≡ status }
{
    if let Some(text) = fault_text(status) {
        let _ = eprintln!(rt; "archive_cli: {text}");
    }
    status
}

// Says which word is wrong, and how the program is called.
fn tell_usage(rt: &HostRuntime, ran: &Ran<'_>) {
    if let Some(complaint) = complaint_of_words(ran.words) {
        let _ = eprintln!(rt; "archive_cli: {complaint}");
    }
    let _ = eprintln!(rt; "archive_cli: {USAGE}");
}

// Says which line is no command, and why.
fn tell_bad_line(rt: &HostRuntime, ran: &Ran<'_>) {
    let Some((number, line)) = ran.bad_line(rt.alloc()) else {
        let _ = report(rt, Status::BadScript as u8);
        return;
    };
    if line.text.is_empty() {
        let _ = eprintln!(rt; "archive_cli: line {number}: an empty line is no command");
        return;
    }
    let text = Shown(line.text);
    let _ = match complaint_of_line(line, Settings::DEFAULT.max_value) {
        Some(complaint) => eprintln!(rt; "archive_cli: line {number}: {text}: {complaint}"),
        None => eprintln!(rt; "archive_cli: line {number}: {text}: it is no command"),
    };
}

// Says where the run ended, and what its error means.
fn tell_error(rt: &HostRuntime, ran: &Ran<'_>, failure: Option<&str>) {
    let moment = ran.last_moment();
    let _ = match (failure, &ran.ended.error) {
        (Some(line), _) => eprintln!(rt; "archive_cli: {moment}: {line}"),
        (None, Some(error)) => {
            let meaning = Meaning(error);
            eprintln!(rt; "archive_cli: {moment}: {meaning}")
        }
        (None, None) => eprintln!(rt; "archive_cli: {moment}: the archive failed or refused"),
    };
    if let (Some(Error::RecordCorrupted), Some(items)) = (&ran.ended.error, ran.words.get(2)) {
        let _ = eprintln!(rt; "archive_cli: ITEMS is {items}: was DIR made with another one?");
    }
}

// Says what the run took off the archive's blobs, but for what its commands asked for.
fn tell_losses(rt: &HostRuntime, ran: &Ran<'_>, notebook: &Notebook) {
    // The notes are in the order of their calls.
    let mut walk = ran.walk();
    for note in notebook.notes() {
        let moment = walk.moment_of(note.call);
        if !moment.asks_for_removals() {
            let why = reason_of(note);
            let _ = eprintln!(rt; "archive_cli: {moment} {note}: {why}");
        }
    }
    let cuts = notebook.further_cuts();
    if cuts > 0 {
        let _ = eprintln!(rt; "archive_cli: {cuts} cuts more were made");
    }
    let removals = notebook.further_removals();
    if removals > 0 {
        let _ = eprintln!(rt; "archive_cli: {removals} removals more were made, or were asked for");
    }
    if notebook.has_gaps() {
        let _ = eprintln!(rt; "archive_cli: there was no memory to note each cut and removal");
    }
}

// Why an archive takes something off a blob.
fn reason_of(note: &Note) -> &'static str {
    match note.loss {
        Loss::Cut { .. } | Loss::Erased { .. } => {
            "what stood behind the last whole record was not synced, or is damaged"
        }
        Loss::Removed { .. } => "its section has no whole record",
    }
}

impl fmt::Display for Moment<'_> {
    fn fmt<W: fmt::Write>(&self, f: &mut fmt::Formatter<W>) -> fmt::Result {
        match self {
            Moment::Opening => f.write_str("the opening"),
            Moment::Command(number, None) => write!(f, "line {number}"),
            Moment::Made(number) => write!(f, "command {number} of the made script"),
            Moment::Command(number, Some(text)) => write!(f, "line {number} ({})", Shown(text)),
        }
    }
}
