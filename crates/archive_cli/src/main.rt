//! `archive_cli` keeps records in an archive in a folder, driven by a script of commands on standard input.
//!
//! `run` of `archive_program` carries the theorem: what is written is the text of replies that the machine of records may
//! give to the script, and at every moment each crash leaves what it may. This crate only makes the device, the source and
//! the sink (`ran.rt`), and says on standard error what is wrong and what the run took off the archive's files (`telling.rt`).
#![tactic(auto)]

ghost use Rattle.std.specs.Prelude.{◌≡◌, ◌⊎◌, ◌≤◌, Some, map, string_bytes};
ghost use Rattle.std.specs.Option.{option_copied};
ghost use Rattle.archive_program.specs.WordsSeen.{IsStatusFor, IsStatusIn, IsStatusOf, folder_in};

mod gaps;
mod meaning;
mod ran;
mod telling;
mod texts;

use archive_service::Status;
use archive_words::Noting;
use blob_device::{DevError, FileDevice, HostFiles, Memory};
use gaps::stop_gaps;
use ran::run_on;
use std::io::ErrorKind;
use std::process::ExitCode;
use std::{env, io};
use telling::{report, tell};
use texts::{HELP, VERSION};

fn main(rt: HostRuntime) -> ExitCode {
    // Before any other file is opened, and held to the end. Where it can't be done, the run is as good as without.
    let stoppers = stop_gaps(&rt);
    let status = status(&rt);
    drop(stoppers);
    ExitCode::from(status)
}

// The status of the process.
fn status(rt: &HostRuntime) -> u8
    ensures { result ≤ 7 }
{
    match arguments(rt) {
        Ok(words) => status_of(rt, words.as_slice()),
        Err(error) if error.kind() == ErrorKind::OutOfMemory => {
            report(rt, Status::NoMemory as u8)
        }
        Err(_) => report(rt, Status::Usage as u8),
    }
}

// The status for these words.
fn status_of(rt: &HostRuntime, words: &[String]) -> u8
    ensures { IsStatusOf (map string_bytes words.now) result }
{
    if let [word] = words {
        match word.as_str() {
            "--help" | "-h" => return show(rt, HELP),
            "--version" => return show(rt, VERSION),
            _ => {}
        }
    }
    served(rt, words)
}

// Serves what these words ask for, in the folder that they name, or in memory.
fn served(rt: &HostRuntime, words: &[String]) -> u8
    ensures { IsStatusIn (map string_bytes words.now) result }
{
    match folder_of(words) {
        None => run_in_memory(rt, words),
        Some(folder) => run_in(rt, words, folder),
    }
}

// The folder that keeps the archive; none where it is kept in memory, or where there are no words.
fn folder_of(words: &[String]) -> Option<&str>
    ensures { option_copied result ≡ folder_in (map string_bytes words.now) }
{
    match words.first()?.as_str() {
        "" | "-" => None,
        folder => Some(folder),
    }
}

// The words behind the program's name. Words that are no text are an error.
fn arguments(rt: &HostRuntime) -> io::Result<Vec<String>> {
    let mut words = Vec::new(rt.alloc());
    for word in env::args(rt)?.skip(1) {
        words.push(word)?;
    }
    Ok(words)
}

// Runs the program in memory.
fn run_in_memory(rt: &HostRuntime, words: &[String]) -> u8
    ensures { IsStatusFor (map string_bytes words.now) result }
{
    let mut device = Noting::new(rt.alloc(), Memory::new(rt.alloc()));
    let ran = run_on(rt, words, &mut device);
    tell(rt, &ran, device.notebook(), None)
}

// Runs the program on this folder, which no other program can use meanwhile.
fn run_in(rt: &HostRuntime, words: &[String], folder: &str) -> u8
    requires { folder_in (map string_bytes words.now) ≡ Some folder.now }
    ensures { IsStatusIn (map string_bytes words.now) result }
{
    let Ok(files) = files_of(rt, folder) else {
        return report(rt, Status::NoMemory as u8);
    };
    let mut device = Noting::new(rt.alloc(), files);
    let ran = run_on(rt, words, &mut device);
    tell(rt, &ran, device.notebook(), device.inner().last_failure())
}

// The device over this folder. Only want of memory refuses it, and it touches no file yet.
fn files_of(
    rt: &HostRuntime,
    folder: &str,
) -> Result<FileDevice<HostFiles<HostRuntime>>, DevError> {
    FileDevice::alone(&HostFiles::new(rt)?, rt.alloc(), folder)
}

// Writes a text that a question asks for.
fn show(rt: &HostRuntime, text: &str) -> u8
    ensures { (result ≡ 0) ⊎ (result ≡ 4) }
{
    match println!(rt; "{text}") {
        Ok(()) => Status::Done as u8,
        Err(_) => report(rt, Status::WriteFault as u8),
    }
}
