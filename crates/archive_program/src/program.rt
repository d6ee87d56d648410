// The program: words, then the input to its end, then the script, then the commands, then the replies.
ghost use Rattle.std.specs.Prelude.{map, string_bytes};
ghost use Rattle.archive_service.specs.Settings.{AreSettings, usual};
ghost use Rattle.archives.specs.Changes.{outcome};
ghost use Rattle.archive_program.specs.Answering.{AnswersTo, MayBeDone};
ghost use Rattle.archive_program.specs.Program.{Runs};
ghost use Rattle.archive_program.specs.WordsSeen.{job_seen};

use crate::answer::{Answer, answer_made, answer_of};
use crate::input::{InputError, read_input};
use crate::output::write_output;
use crate::words::{Job, job_of};
use archive_service::{Ended, Settings, Status};
use blob_device::{Device, IoFault, Sink, Source};
use std::alloc::Global;

/// Carries out what the words ask for, and writes what is owed. It is [`run_with`] with
/// [`Settings::DEFAULT`].
pub fn run<D: Device, S: Source, W: Sink>(
    alloc: Global,
    words: &[String],
    dev: &mut D,
    input: &mut S,
    out: &mut W,
) -> Ended
    ensures { Runs usual (map string_bytes words.now) result D.Device dev.old dev.new
        S.Source input.old input.new W.Sink out.old out.new }
{
    run_with(alloc, words, dev, input, out, &Settings::DEFAULT)
}

/// Carries out a script over an archive on the device: the input is the script, and the replies are written;
/// or it is generated, and a line that sums up its replies is written.
///
/// The words are those behind the program's name. The order is: the words, the input to its end, the script,
/// the opening of the archive and the commands, the text. Of a generated script no input is read. The
/// settings have to be valid.
pub fn run_with<D: Device, S: Source, W: Sink>(
    alloc: Global,
    words: &[String],
    dev: &mut D,
    input: &mut S,
    out: &mut W,
    settings: &Settings,
) -> Ended
    requires { AreSettings settings.now }
    ensures { Runs settings.now (map string_bytes words.now) result D.Device dev.old dev.new
        S.Source input.old input.new W.Sink out.old out.new }
{
    let Some(job) = job_of(words) else {
        return Ended::unserved(alloc, Status::Usage);
    };
    let Answer { ended, text } = match answer_to(alloc, dev, input, job, settings) {
        Ok(answer) => answer,
        Err(status) => return Ended::unserved(alloc, status),
    };
    match write_output(out, text.as_slice()) {
        Ok(()) => ended,
        Err(IoFault::Fault) => Ended {
            status: Status::WriteFault as u8,
            ..ended
        },
        Err(IoFault::Mem) => Ended {
            status: Status::NoMemory as u8,
            ..ended
        },
    }
}

// The answer to a job, or how the program ends where its input was not read.
fn answer_to<D: Device, S: Source>(
    alloc: Global,
    dev: &mut D,
    input: &mut S,
    job: Job,
    settings: &Settings,
) -> Result<Answer, Status>
    requires settings { AreSettings settings.now }
    requires job { MayBeDone (job_seen job) }
    ensures { AnswersTo settings.now (job_seen job) D.Device dev.old dev.new
        S.Source input.old input.new (outcome (λ a. (a.ended, a.text.items)) result) }
{
    match job {
        Job::Script(items) => match read_input(alloc, input) {
            Ok(bytes) => Ok(answer_of(alloc, dev, bytes.as_slice(), items, settings)),
            Err(InputError::Fault) => Err(Status::ReadFault),
            Err(InputError::TooLong) => Err(Status::TooLong),
            Err(InputError::Mem) => Err(Status::NoMemory),
        },
        Job::Make(items, count) => Ok(answer_made(alloc, dev, count, items, settings)),
    }
}
