// The answer to a whole input: what is to be written, and how the program then ends.
ghost use Rattle.std.specs.Prelude.{◌≡◌, ◌≤◌, ◌++◌, [], None, Some, OnOk, map};
ghost use Rattle.std.specs.List.{AllByRecursion};
ghost use Rattle.std.specs.Option.{option_map};
ghost use Rattle.std.specs.Result.{IsOkUnless};
ghost use Rattle.archives.specs.Machine.{replied};
ghost use Rattle.archive_service.specs.ErrorTexts.{error_line, served_text};
ghost use Rattle.archive_service.specs.Made.{made_text, summary_text};
ghost use Rattle.archive_service.specs.Script.{CanBeSaid};
ghost use Rattle.archive_service.specs.Settings.{AreSettings};
ghost use Rattle.archive_service.specs.Texts.{bad_line_text, replies_text};
ghost use Rattle.archive_program.specs.Program.{error_of};
ghost use Rattle.archive_program.specs.Answered.{AnswersServed, AnswersWhole, EndsWith, ServesScript, status_of};
ghost use Rattle.archive_program.specs.Words as job;

use crate::config::config_of;
use archive_service::{
    End, Ended, Marks, Replies, Script, ScriptError, Served, Settings, Status, make, read_script,
    serve, write_bad_line, write_error_line, write_reply, write_summary,
};
use archives::{Error, FourCap, Reply};
use blob_device::Device;
use std::alloc::Global;
use value_codec::{ByteValue, Key8, Sha256Hash, Sha256Seal};

/// What is to be written, and how the program ends once it is.
#[derive(Drop)]
pub struct Answer {
    /// The status, the marks and the error.
    pub ended: Ended,
    /// What is to be written.
    pub text: Vec<u8>,
}

impl Answer {
    // No text, since there was no memory.
    fn no_memory(alloc: Global, marks: Marks, error: Option<Error>) -> Answer
        ensures status { result.ended.status ≡ 6 }
        ensures marks { result.ended.marks ≡ marks }
        ensures error { result.ended.error ≡ error }
        ensures text { result.text.items ≡ [] }
    {
        Answer {
            ended: Ended {
                status: Status::NoMemory as u8,
                marks,
                error,
            },
            text: Vec::new(alloc),
        }
    }
}

/// The answer to a whole input, which is a script or not.
pub fn answer_of<D: Device>(
    alloc: Global,
    dev: &mut D,
    input: &[u8],
    items: u64,
    settings: &Settings,
) -> Answer
    requires settings { AreSettings settings.now }
    requires items { 1 ≤ items }
    ensures { AnswersWhole settings.now (job.Script items) D.Device dev.old dev.new input.now
        result.ended result.text.items }
{
    match read_script(alloc, input, settings.max_value) {
        Ok(script) => served(alloc, dev, &script, items, settings),
        Err(ScriptError::Line(number)) => bad_line(alloc, number),
        Err(ScriptError::Mem) => Answer::no_memory(alloc, Marks::new(alloc), None),
    }
}

// The answer to a script whose line of this number is bad.
fn bad_line(alloc: Global, number: u64) -> Answer
    ensures { EndsWith (bad_line_text number) 2 [] None result.ended result.text.items }
{
    let mut text = Vec::new(alloc);
    match write_bad_line(number, &mut text) {
        Ok(()) => Answer {
            ended: Ended::unserved(alloc, Status::BadScript),
            text,
        },
        Err(_) => Answer::no_memory(alloc, Marks::new(alloc), None),
    }
}

/// The answer to no input: a script of so many records is generated.
pub fn answer_made<D: Device>(
    alloc: Global,
    dev: &mut D,
    count: u32,
    items: u64,
    settings: &Settings,
) -> Answer
    requires settings { AreSettings settings.now }
    requires items { 1 ≤ items }
    ensures { AnswersWhole settings.now (job.Make items count) D.Device dev.old dev.new []
        result.ended result.text.items }
{
    let Ok(script) = make(alloc, count) else {
        return Answer::no_memory(alloc, Marks::new(alloc), None);
    };
    match run_of(alloc, dev, &script, items, settings) {
        Some(
            Served {
                replies,
                marks,
                end,
            },
        ) => summed_at(alloc, count, &replies, marks, end),
        None => Answer::no_memory(alloc, Marks::new(alloc), None),
    }
}

// The answer to a script.
fn served<D: Device>(
    alloc: Global,
    dev: &mut D,
    script: &Script,
    items: u64,
    settings: &Settings,
) -> Answer
    requires settings { AreSettings settings.now }
    requires items { 1 ≤ items }
    requires values { AllByRecursion (CanBeSaid settings.now.max_value) script.now }
    ensures { AnswersServed settings.now (job.Script items) D.Device dev.old dev.new script.now
        result.ended result.text.items }
{
    match run_of(alloc, dev, script, items, settings) {
        Some(
            Served {
                replies,
                marks,
                end,
            },
        ) => answer_at(alloc, replies.as_slice(), marks, end),
        None => Answer::no_memory(alloc, Marks::new(alloc), None),
    }
}

// What a script gets, or None where there is no memory for the names of the archive's partitions.
fn run_of<D: Device>(
    alloc: Global,
    dev: &mut D,
    script: &Script,
    items: u64,
    settings: &Settings,
) -> Option<Served<ByteValue>>
    requires settings { AreSettings settings.now }
    requires items { 1 ≤ items }
    requires values { AllByRecursion (CanBeSaid settings.now.max_value) script.now }
    ensures { ServesScript settings.now items D.Device dev.old dev.new script.now (option_map
        (λ s. (s.marks, map (replied (λ v. v)) s.replies, s.end)) result) }
{
    let Ok(config) = config_of(alloc, items, settings) else {
        return None;
    };
    Some(serve::<D, FourCap, Key8, ByteValue, Sha256Seal, Sha256Hash>(
        alloc,
        dev,
        &config,
        script.as_slice(),
    ))
}

// The answer of a run over a generated script that came to this end.
fn summed_at(
    alloc: Global,
    count: u32,
    replies: &Replies<ByteValue>,
    marks: Marks,
    end: End,
) -> Answer
    ensures { EndsWith (made_text count (map (replied (λ v. v)) replies.now) end)
        (status_of end) marks (error_of end) result.ended result.text.items }
{
    match end {
        End::Done => summed(alloc, count, replies, marks),
        End::Failed(Error::Mem) => Answer::no_memory(alloc, marks, None),
        End::Failed(error) => failed(alloc, &[], marks, error),
    }
}

// The answer of a run over a generated script that is done.
fn summed(alloc: Global, count: u32, replies: &Replies<ByteValue>, marks: Marks) -> Answer
    ensures { EndsWith (summary_text count (map (replied (λ v. v)) replies.now))
        0 marks None result.ended result.text.items }
{
    let mut text = Vec::new(alloc);
    match write_summary(count, replies, &mut text) {
        Ok(()) => Answer {
            ended: Ended {
                status: Status::Done as u8,
                marks,
                error: None,
            },
            text,
        },
        Err(_) => Answer::no_memory(alloc, marks, None),
    }
}

// The answer of a run that came to this end.
fn answer_at(alloc: Global, replies: &[Reply<ByteValue>], marks: Marks, end: End) -> Answer
    ensures { EndsWith (served_text (map (replied (λ v. v)) replies.now) end)
        (status_of end) marks (error_of end) result.ended result.text.items }
{
    match end {
        End::Done => answered(alloc, replies, marks),
        End::Failed(error) => stopped(alloc, replies, marks, error),
    }
}

// The answer of a run that ended in an error.
fn stopped(alloc: Global, replies: &[Reply<ByteValue>], marks: Marks, error: Error) -> Answer
    ensures { EndsWith (served_text (map (replied (λ v. v)) replies.now) (End.Failed error))
        (status_of (End.Failed error)) marks (error_of (End.Failed error)) result.ended result.text.items }
{
    match error {
        Error::Mem => Answer::no_memory(alloc, marks, None),
        error => failed(alloc, replies, marks, error),
    }
}

// The answer of a run that is done.
fn answered(alloc: Global, replies: &[Reply<ByteValue>], marks: Marks) -> Answer
    ensures { EndsWith (replies_text (map (replied (λ v. v)) replies.now))
        0 marks None result.ended result.text.items }
{
    let mut text = Vec::new(alloc);
    match append_replies(replies, &mut text) {
        Ok(()) => Answer {
            ended: Ended {
                status: Status::Done as u8,
                marks,
                error: None,
            },
            text,
        },
        Err(_) => Answer::no_memory(alloc, marks, None),
    }
}

// The answer of a run that ended in an error other than want of memory: these replies, and the error.
fn failed(alloc: Global, replies: &[Reply<ByteValue>], marks: Marks, error: Error) -> Answer
    ensures { EndsWith (replies_text (map (replied (λ v. v)) replies.now) ++ error_line error)
        5 marks (Some error) result.ended result.text.items }
{
    let mut text = Vec::new(alloc);
    let written = match append_replies(replies, &mut text) {
        Ok(()) => write_error_line(&error, &mut text),
        Err(e) => Err(e),
    };
    match written {
        Ok(()) => Answer {
            ended: Ended {
                status: Status::StoreError as u8,
                marks,
                error: Some(error),
            },
            text,
        },
        Err(_) => Answer::no_memory(alloc, marks, Some(error)),
    }
}

// Appends the lines of all replies.
fn append_replies(replies: &[Reply<ByteValue>], text: &mut Vec<u8>) -> Result<(), ScriptError>
    ensures text { OnOk result (text.new.items
        ≡ text.old.items ++ replies_text (map (replied (λ v. v)) replies.now)) }
    ensures memory { IsOkUnless result ScriptError.Mem }
{
    for reply in replies {
        write_reply(reply, text)?;
    }
    Ok(())
}
